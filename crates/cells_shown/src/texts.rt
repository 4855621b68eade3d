//! The texts of cells.

ghost use Rattle.std.specs.Prelude.{◌<◌, ◌^◌, ◌≤ℤ◌, pos, length};

use domain::{Chunk, Prediction, launch};
use nest_lang::Command;
use skeletons::{Cell, Run, Skeleton, TileWalk, Walk};
use std::alloc::{AllocError, Global};
use transform::schedule_of;

/// The text of a chunk: a line for each cell, and below it one for each of its runs.
pub fn chunk_text(
    alloc: Global,
    pred: &Prediction<2>,
    script: &[Command],
    chunk: Chunk,
) -> Result<String, AllocError>
    requires from { pos 0 ≤ℤ chunk.first }
    requires to { chunk.first ≤ℤ pos (2 ^ 32) }
    requires some { pos 1 ≤ℤ chunk.turns }
    requires most { chunk.turns ≤ℤ pos 1024 }
{
    let Some(schedule) = schedule_of::<2>(script) else {
        return String::from_str(alloc, "no schedule");
    };
    let Ok(_) = launch(pred, chunk, 324) else {
        return String::from_str(alloc, "held");
    };
    let skeleton = Skeleton::new(alloc, pred, &schedule, chunk)?;
    let cells = skeleton.cells(alloc)?;
    let mut text = format!(in alloc; "{} cells", cells.len())?;
    for cell in &cells {
        text.push_str(cell_text(alloc, &skeleton, cell)?.as_str())?;
    }
    Ok(text)
}

/// The text of a cell.
fn cell_text(
    alloc: Global,
    skeleton: &Skeleton<'_, 2>,
    cell: &Cell<2>,
) -> Result<String, AllocError> {
    let alone = [*cell];
    let mut walk = TileWalk::new(skeleton, &alone);
    let mut text = format!(in alloc;
        "\ncell lead {} {} wave {} tile {} {} instances {}",
        cell.lead[0],
        cell.lead[1],
        cell.wave,
        cell.tile[0],
        cell.tile[1],
        walked(&mut walk)
    )?;
    for run in &skeleton.runs(alloc, cell)? {
        text.push_str(run_text(alloc, run)?.as_str())?;
    }
    Ok(text)
}

/// How many instances the walk over one tile gives.
fn walked(walk: &mut TileWalk<'_, 2>) -> u64
    requires { 0 < length walk.old.lists }
{
    walk.enter(0);
    let mut count: u64 = 0;
    'instances: while let Some(_) = walk.next() {
        count = count.saturating_add(1);
    }
    count
}

/// The text of a run.
fn run_text(alloc: Global, run: &Run<2>) -> Result<String, AllocError> {
    format!(in alloc;
        "\n  block {} at {} {} step {} {} count {}",
        run.first.block, run.first.at[0], run.first.at[1], run.step[0], run.step[1], run.count
    )
}
