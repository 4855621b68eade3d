//! The writer of statements.

ghost use Rattle.std.specs.Prelude.{◌≡◌, ◌++◌, OnOk};
ghost use Rattle.nest_tokens.specs.declared.token.Mark.TheVariants.{Assign as AssignMark};
ghost use Rattle.canonical.specs.Pieces.{text_of, line, spaced};
ghost use Rattle.canonical.specs.Labelled.{labels_of};
ghost use Rattle.canonical.specs.Expressions.{expression_of};
ghost use Rattle.canonical.specs.Statements.{let_line, set_line, store_line, if_line, else_line, close_line, otherwise, statement_of, statement_lines};

use crate::expression::write_expression;
use crate::labels::Labels;
use crate::page::{Page, inside};
use nest_lang::{Expr, Place, Stmt};
use nest_tokens::Mark;
use std::alloc::AllocError;

/// Writes the sign of an assignment and its value.
#[tactic(auto, using(crate::proofs::PieceLaws::texts))]
fn write_value(labels: &Labels<'_>, value: &Expr, page: &mut Page) -> Result<(), AllocError>
    ensures { OnOk result (page.new ≡ page.old ++ text_of (spaced AssignMark ++ expression_of (labels_of labels.now) value.now)) }
{
    page.spaced(Mark::Assign)?;
    write_expression(labels, value, page)
}

/// Writes a local and its value.
#[tactic(auto, unfolding(crate::specs::Statements::let_line), using(crate::proofs::PieceLaws::texts))]
fn write_let(
    labels: &Labels<'_>,
    number: u8,
    value: &Expr,
    page: &mut Page,
) -> Result<(), AllocError>
    ensures { OnOk result (page.new ≡ page.old ++ text_of (let_line (labels_of labels.now) number value.now)) }
{
    page.mark(Mark::Let)?;
    page.space()?;
    page.name(labels.name(Place::Local(number)))?;
    write_value(labels, value, page)
}

/// Writes a scalar and its new value.
#[tactic(auto, unfolding(crate::specs::Statements::set_line), using(crate::proofs::PieceLaws::texts))]
fn write_set(
    labels: &Labels<'_>,
    number: u8,
    value: &Expr,
    page: &mut Page,
) -> Result<(), AllocError>
    ensures { OnOk result (page.new ≡ page.old ++ text_of (set_line (labels_of labels.now) number value.now)) }
{
    page.name(labels.name(Place::Scalar(number)))?;
    write_value(labels, value, page)
}

/// Writes the address and the value of a store.
#[tactic(auto, unfolding(crate::specs::Statements::store_line), using(crate::proofs::PieceLaws::texts))]
fn write_store(
    labels: &Labels<'_>,
    address: &Expr,
    value: &Expr,
    page: &mut Page,
) -> Result<(), AllocError>
    ensures { OnOk result (page.new ≡ page.old ++ text_of (store_line (labels_of labels.now) address.now value.now)) }
{
    page.mark(Mark::OpenBracket)?;
    write_expression(labels, address, page)?;
    page.mark(Mark::CloseBracket)?;
    write_value(labels, value, page)
}

/// Writes the condition of an `if` and the brace behind it.
#[tactic(auto, unfolding(crate::specs::Statements::if_line), using(crate::proofs::PieceLaws::texts))]
fn write_if(labels: &Labels<'_>, condition: &Expr, page: &mut Page) -> Result<(), AllocError>
    ensures { OnOk result (page.new ≡ page.old ++ text_of (if_line (labels_of labels.now) condition.now)) }
{
    page.mark(Mark::If)?;
    page.space()?;
    write_expression(labels, condition, page)?;
    page.space()?;
    page.mark(Mark::OpenBrace)
}

/// Writes the line between two branches.
#[tactic(auto, using(crate::proofs::PieceLaws::texts))]
fn write_else(depth: usize, page: &mut Page) -> Result<(), AllocError>
    ensures { OnOk result (page.new ≡ page.old ++ text_of (line depth else_line)) }
{
    page.indent(depth)?;
    page.mark(Mark::CloseBrace)?;
    page.spaced(Mark::Else)?;
    page.mark(Mark::OpenBrace)?;
    page.newline()
}

/// Writes the line of a closing brace.
#[tactic(auto, using(crate::proofs::PieceLaws::texts))]
pub fn write_close(depth: usize, page: &mut Page) -> Result<(), AllocError>
    ensures { OnOk result (page.new ≡ page.old ++ text_of (line depth close_line)) }
{
    page.indent(depth)?;
    page.mark(Mark::CloseBrace)?;
    page.newline()
}

/// Writes the lines of a statement, within so many open braces.
#[cycle(write)]
#[tactic(auto, using(crate::proofs::StatementEquationLaws::stated))]
fn write_statement(
    labels: &Labels<'_>,
    statement: &Stmt,
    depth: usize,
    page: &mut Page,
) -> Result<(), AllocError>
    ensures { OnOk result (page.new ≡ page.old ++ text_of (statement_of (labels_of labels.now) statement.now depth)) }
{
    match statement {
        Stmt::Let(number, value) => {
            page.indent(depth)?;
            write_let(labels, *number, value, page)?;
            page.newline()
        }
        Stmt::Set(number, value) => {
            page.indent(depth)?;
            write_set(labels, *number, value, page)?;
            page.newline()
        }
        Stmt::Store(_, address, value) => {
            page.indent(depth)?;
            write_store(labels, address, value, page)?;
            page.newline()
        }
        Stmt::If(condition, first, second) => {
            page.indent(depth)?;
            write_if(labels, condition, page)?;
            page.newline()?;
            write_statements(labels, first.as_slice(), inside(depth)?, page)?;
            write_otherwise(labels, second.as_slice(), depth, page)?;
            write_close(depth, page)
        }
    }
}

/// Writes an else branch, which stands only where it has a statement.
#[cycle(write)]
#[tactic(auto, using(crate::proofs::StatementEquationLaws::stated))]
fn write_otherwise(
    labels: &Labels<'_>,
    branch: &[Stmt],
    depth: usize,
    page: &mut Page,
) -> Result<(), AllocError>
    ensures { OnOk result (page.new ≡ page.old ++ text_of (otherwise (labels_of labels.now) branch.now depth)) }
{
    if branch.is_empty() {
        return Ok(());
    }
    write_else(depth, page)?;
    write_statements(labels, branch, inside(depth)?, page)
}

/// Writes statements, one behind another.
#[cycle(write)]
#[tactic(auto, using(crate::proofs::StatementEquationLaws::stated))]
pub fn write_statements(
    labels: &Labels<'_>,
    block: &[Stmt],
    depth: usize,
    page: &mut Page,
) -> Result<(), AllocError>
    ensures { OnOk result (page.new ≡ page.old ++ text_of (statement_lines (labels_of labels.now) block.now depth)) }
{
    for statement in block {
        write_statement(labels, statement, depth, page)?;
    }
    Ok(())
}
