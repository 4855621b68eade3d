//! The writer of loops.

ghost use Rattle.std.specs.Prelude.{◌≡◌, ◌++◌, OnOk};
ghost use Rattle.canonical.specs.Pieces.{text_of};
ghost use Rattle.canonical.specs.Labelled.{labels_of};
ghost use Rattle.canonical.specs.Loops.{step_of, bounds_of, heading_of, opening_line, loop_lines};

use crate::expression::write_expression;
use crate::labels::Labels;
use crate::page::{Page, inside};
use crate::statement::{write_close, write_statements};
use nest_lang::{Expr, Head, Loop};
use nest_tokens::Mark;
use std::alloc::AllocError;

/// Writes a step, which stands only where it is not 1.
#[tactic(auto, unfolding(crate::specs::Loops::step_of), using(crate::proofs::PieceLaws::texts))]
fn write_step(stride: i64, page: &mut Page) -> Result<(), AllocError>
    ensures { OnOk result (page.new ≡ page.old ++ text_of (step_of stride)) }
{
    if stride == 1 {
        return Ok(());
    }
    page.spaced(Mark::Step)?;
    page.signed(stride)
}

/// Writes the head of a `for` behind its name.
#[tactic(auto, unfolding(crate::specs::Loops::bounds_of), using(crate::proofs::PieceLaws::texts))]
fn write_bounds(
    labels: &Labels<'_>,
    lower: &Expr,
    upper: &Expr,
    stride: i64,
    page: &mut Page,
) -> Result<(), AllocError>
    ensures { OnOk result (page.new ≡ page.old ++ text_of (bounds_of (labels_of labels.now) lower.now upper.now stride)) }
{
    page.spaced(Mark::Assign)?;
    write_expression(labels, lower, page)?;
    page.spaced(Mark::Below)?;
    write_expression(labels, upper, page)?;
    write_step(stride, page)
}

/// Writes the head of a loop at a level, from 0.
#[tactic(auto, unfolding(crate::specs::Loops::heading_of), using(crate::proofs::PieceLaws::texts))]
fn write_heading(
    labels: &Labels<'_>,
    level: usize,
    head: &Head,
    page: &mut Page,
) -> Result<(), AllocError>
    ensures { OnOk result (page.new ≡ page.old ++ text_of (heading_of (labels_of labels.now) level head.now)) }
{
    match head {
        Head::For(lower, upper, stride) => {
            page.mark(Mark::For)?;
            page.space()?;
            page.name(labels.turns(level))?;
            write_bounds(labels, lower, upper, *stride, page)
        }
        Head::While(condition) => {
            page.mark(Mark::While)?;
            page.space()?;
            write_expression(labels, condition, page)
        }
    }
}

/// Writes the line that opens a loop at a level, from 0.
#[tactic(auto, unfolding(crate::specs::Loops::opening_line), using(crate::proofs::PieceLaws::texts))]
fn write_opening(
    labels: &Labels<'_>,
    level: usize,
    head: &Head,
    page: &mut Page,
) -> Result<(), AllocError>
    ensures { OnOk result (page.new ≡ page.old ++ text_of (opening_line (labels_of labels.now) level head.now)) }
{
    page.indent(level)?;
    write_heading(&labels.in_head(), level, head, page)?;
    page.space()?;
    page.mark(Mark::OpenBrace)?;
    page.newline()
}

/// Writes loops from a level on, each in the one before it.
#[tactic(auto, using(crate::proofs::NestedLoopLaws::nested))]
pub fn write_loops(
    labels: &Labels<'_>,
    level: usize,
    loops: &[Loop],
    page: &mut Page,
) -> Result<(), AllocError>
    ensures { OnOk result (page.new ≡ page.old ++ text_of (loop_lines (labels_of labels.now) level loops.now)) }
{
    let Some((outer, inner)) = loops.split_first() else {
        return Ok(());
    };
    let next = inside(level)?;
    write_opening(labels, level, &outer.head, page)?;
    write_statements(&labels.in_pre(level), outer.pre.as_slice(), next, page)?;
    write_loops(labels, next, inner, page)?;
    write_statements(&labels.in_post(level), outer.post.as_slice(), next, page)?;
    write_close(level, page)
}
