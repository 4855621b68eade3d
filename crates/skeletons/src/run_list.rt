//! The runs of a cell.

ghost use Rattle.std.specs.Prelude.{◌≡◌, ◌<◌, ◌++◌, pos, if◌then◌else◌, nat_lt, length, map, replicate, IfOk, OnOk};
ghost use Rattle.std.specs.List.{AllByRecursion};
ghost use Rattle.domain.specs.Tables.{block_at, counters, cut, depth};
ghost use Rattle.skeletons.specs.Frames.{IsFrame};
ghost use Rattle.skeletons.specs.RunLists.{IsStretch, run_of};
ghost use Rattle.skeletons.specs.Runs.{HasRuns};

use crate::cell::{Cell, Run};
use crate::cell_box::cell_box;
use crate::frame::{Frame, instance};
use crate::places::counters;
use crate::side::cut;
use domain::Prediction;
use level_walk::merges::Best;
use level_walk::runs::Run as Stretch;
use std::alloc::{AllocError, Global};

/// By how much the counters of a block differ from one instance of a run to the next: the direction, cut to them; zeros
/// where there is one instance.
fn step<const D: usize>(
    pred: &Prediction<D>,
    rank: usize,
    direction: &[i64; D],
    count: u64,
) -> [i64; D]
    requires few { D < 7 }
    requires most { rank < 18 }
    requires inside { rank < length pred.now.blocks }
    ensures { result ≡ (if nat_lt 1 count then cut (counters pred.now (block_at pred.now rank)) direction.now else replicate (depth pred.now) (pos 0)) }
{
    let block = pred.block(rank as u8);
    if 1 < count {
        cut(direction, counters(pred, block))
    } else {
        [0; D]
    }
}

/// The run of the instances at the places of a stretch.
fn run_at<const D: usize>(
    frame: &Frame<'_, D>,
    rank: usize,
    direction: &[i64; D],
    stretch: &Stretch,
) -> Run<D>
    requires frame { IsFrame D (record { table = frame.now.pred.now; schedule = frame.now.schedule.now; chunk = frame.now.chunk }) frame.now.inverse frame.now.blocks.items }
    requires stretch { IsStretch (record { table = frame.now.pred.now; schedule = frame.now.schedule.now; chunk = frame.now.chunk }) rank stretch.now }
    ensures { result ≡ run_of (record { table = frame.now.pred.now; schedule = frame.now.schedule.now; chunk = frame.now.chunk }) frame.now.inverse direction.now rank stretch.now }
{
    let point = stretch.point(stretch.low);
    let first = instance(frame, &Best { rank, point });
    let count = stretch.high.abs_diff(stretch.low) + 1;
    Run {
        first,
        step: step(frame.pred, rank, direction, count),
        count,
    }
}

/// Puts the runs of a block behind those of the blocks before it.
fn push_runs<const D: usize>(
    frame: &Frame<'_, D>,
    rank: usize,
    direction: &[i64; D],
    stretches: &[Stretch],
    runs: &mut Vec<Run<D>>,
) -> Result<(), AllocError>
    requires frame { IsFrame D (record { table = frame.now.pred.now; schedule = frame.now.schedule.now; chunk = frame.now.chunk }) frame.now.inverse frame.now.blocks.items }
    requires stretches { AllByRecursion (IsStretch (record { table = frame.now.pred.now; schedule = frame.now.schedule.now; chunk = frame.now.chunk }) rank) stretches.now }
    ensures { OnOk result (runs.new.items ≡ runs.old.items ++ map (run_of (record { table = frame.now.pred.now; schedule = frame.now.schedule.now; chunk = frame.now.chunk }) frame.now.inverse direction.now rank) stretches.now) }
{
    for stretch in stretches {
        runs.push(run_at(frame, rank, direction, stretch))?;
    }
    Ok(())
}

/// The runs of a cell, by the rank of the block and then by the place of the first instance.
pub(crate) fn runs_in<const D: usize>(
    alloc: Global,
    frame: &Frame<'_, D>,
    cell: &Cell<D>,
) -> Result<Vec<Run<D>>, AllocError>
    requires frame { IsFrame D (record { table = frame.now.pred.now; schedule = frame.now.schedule.now; chunk = frame.now.chunk }) frame.now.inverse frame.now.blocks.items }
    ensures { IfOk result (λ runs. HasRuns D (record { table = frame.now.pred.now; schedule = frame.now.schedule.now; chunk = frame.now.chunk }) cell.now runs.items) }
{
    let found = cell_box(frame.schedule, cell);
    let direction = frame.schedule.columns().rows[D - 1];
    let mut runs = Vec::new(alloc);
    for (rank, block) in frame.blocks.iter().enumerate() {
        let stretches = block.runs(alloc, D, &found.lows, &found.highs)?;
        push_runs(frame, rank, &direction, stretches.as_slice(), &mut runs)?;
    }
    Ok(runs)
}
