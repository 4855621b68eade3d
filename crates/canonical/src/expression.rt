//! The writer of expressions.

ghost use Rattle.std.specs.Prelude.{◌≡◌, ◌++◌, OnOk};
ghost use Rattle.canonical.specs.Pieces.{text_of};
ghost use Rattle.canonical.specs.Labelled.{labels_of};
ghost use Rattle.canonical.specs.Expressions.{printed, as_group, expression_of};

use crate::group::{Group, mark_of};
use crate::labels::Labels;
use crate::page::Page;
use nest_lang::Expr;
use nest_tokens::Mark;
use std::alloc::AllocError;

/// The group of an expression.
#[tactic(auto, using(crate::proofs::PrintingLaws::groups))]
fn group_of(labels: &Labels<'_>, expr: &Expr) -> Group
    ensures { result ≡ (printed (labels_of labels.now) expr.now).group }
{
    match expr {
        Expr::Number(_) | Expr::Var(_) | Expr::Load(_, _) | Expr::Neg(_) => Group::Unary,
        Expr::Two(op, _, _) => Group::made_by(*op),
    }
}

/// Writes an expression where one of a group is wanted.
#[cycle(print)]
#[tactic(auto, using(crate::proofs::PrintingLaws::grouped))]
fn write_grouped(
    labels: &Labels<'_>,
    expr: &Expr,
    wanted: Group,
    page: &mut Page,
) -> Result<(), AllocError>
    ensures { OnOk result (page.new ≡ page.old ++ text_of (as_group wanted (printed (labels_of labels.now) expr.now))) }
{
    if group_of(labels, expr).fits(wanted) {
        write_bare(labels, expr, page)
    } else {
        page.mark(Mark::Open)?;
        write_bare(labels, expr, page)?;
        page.mark(Mark::Close)
    }
}

/// Writes an expression without parentheses round it.
#[cycle(print)]
#[tactic(auto, using(crate::proofs::PrintingLaws::printings))]
fn write_bare(labels: &Labels<'_>, expr: &Expr, page: &mut Page) -> Result<(), AllocError>
    ensures { OnOk result (page.new ≡ page.old ++ text_of (printed (labels_of labels.now) expr.now).pieces) }
{
    match expr {
        Expr::Number(number) => page.signed(*number),
        Expr::Var(place) => page.name(labels.name(*place)),
        Expr::Load(_, address) => {
            page.mark(Mark::OpenBracket)?;
            write_grouped(labels, address.get(), Group::Whole, page)?;
            page.mark(Mark::CloseBracket)
        }
        Expr::Neg(operand) => {
            page.mark(Mark::Minus)?;
            write_grouped(labels, operand.get(), Group::Unary, page)
        }
        Expr::Two(op, left, right) => {
            write_grouped(labels, left.get(), Group::left_of(*op), page)?;
            page.spaced(mark_of(*op))?;
            write_grouped(labels, right.get(), Group::right_of(*op), page)
        }
    }
}

/// Writes a whole expression.
#[tactic(auto, unfolding(crate::specs::Expressions::expression_of))]
pub fn write_expression(labels: &Labels<'_>, expr: &Expr, page: &mut Page) -> Result<(), AllocError>
    ensures { OnOk result (page.new ≡ page.old ++ text_of (expression_of (labels_of labels.now) expr.now)) }
{
    write_grouped(labels, expr, Group::Whole, page)
}
