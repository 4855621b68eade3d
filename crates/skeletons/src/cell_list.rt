//! The cells of a chunk that have an instance.

ghost use Rattle.std.specs.Prelude.{◌≡◌, ◌<◌, ◌≤◌, ◌^◌, ◌≤ℤ◌, ◌<ℤ◌, pos, neg_ℤ, ℕ, ◌↔◌, length, unsigned_abs, IfOk, OnOk};
ghost use Rattle.std.specs.Int.{int_div_euclid};
ghost use Rattle.std.specs.List.{AllByRecursion};
ghost use Rattle.orders.specs.Orders.{Ordered};
ghost use Rattle.plain_lemmas.specs.Lists.{Has};
ghost use Rattle.transform.specs.Schedules.{IsSchedule};
ghost use Rattle.skeletons.specs.CellLists.{Gains, IsCellAmong, IsCellOf, IsMetBelow, IsNumberIn, cell_at, last_size};
ghost use Rattle.skeletons.specs.Cells.{AreCellsOf, CellComes};
ghost use Rattle.skeletons.specs.Frames.{IsFrame, IsPlaceOf};
ghost use Rattle.skeletons.specs.RunLists.{IsStretch};

use crate::cell::Cell;
use crate::cell_box::tile_ends;
use crate::frame::Frame;
use crate::inverse::{array_of, counters_of};
use level_walk::merges::Best;
use level_walk::runs::Run as Stretch;
use std::alloc::{AllocError, Global};
use transform::Schedule;

/// The least and the greatest number of a place that is scanned.
const LEAST: i64 = -(1 << 59);

const GREATEST: i64 = 1 << 59;

/// The size of the tiles of the last row; 1 where it leads.
fn last_size<const D: usize>(schedule: &Schedule<D>) -> u32
    requires some { 0 < D }
    requires is { IsSchedule D schedule.now }
    ensures value { result ≡ last_size D schedule.now }
    ensures some { 0 < result }
    ensures limit { result ≤ 65536 }
{
    if D - 1 < schedule.seq() {
        1
    } else {
        schedule.size(D - 1)
    }
}

/// The cell of the instance at a place of a block.
fn cell_at<const D: usize>(frame: &Frame<'_, D>, best: &Best) -> Cell<D>
    requires frame { IsFrame D (record { table = frame.now.pred.now; schedule = frame.now.schedule.now; chunk = frame.now.chunk }) frame.now.inverse frame.now.blocks.items }
    requires place { IsPlaceOf (record { table = frame.now.pred.now; schedule = frame.now.schedule.now; chunk = frame.now.chunk }) best.now.rank best.now.point.items }
    ensures { result ≡ cell_at (record { table = frame.now.pred.now; schedule = frame.now.schedule.now; chunk = frame.now.chunk }) frame.now.inverse best.now.point.items }
{
    let place: [i64; D] = array_of(best.point.as_slice());
    let point = counters_of(&frame.inverse.map(&place), D);
    let key = frame.schedule.phase_of(&point);
    let tile = frame.schedule.tile_of(&point);
    Cell {
        lead: counters_of(&key.lead, D),
        wave: key.wave as i64,
        tile: counters_of(&tile, D),
    }
}

/// The number of the tile of a number.
fn tile_number(number: i64, size: u32) -> i64
    requires some { 0 < size }
    requires near { unsigned_abs number ≤ 2 ^ 59 }
    ensures value { result ≡ int_div_euclid number (pos size) }
    ensures near { unsigned_abs result ≤ 2 ^ 59 }
{
    number.div_euclid(i64::from(size))
}

/// The first number of a tile from the low end of a stretch on.
fn first_in(stretch: &Stretch, tile: i64, size: u32) -> i64
    requires some { 0 < size }
    requires limit { size ≤ 65536 }
    requires near { stretch.now.high ≤ℤ pos (2 ^ 59) }
    requires order { stretch.now.low ≤ℤ stretch.now.high }
    requires from { int_div_euclid stretch.now.low (pos size) ≤ℤ tile }
    requires to { tile ≤ℤ int_div_euclid stretch.now.high (pos size) }
    ensures { IsNumberIn stretch.now (pos size) tile result }
{
    let (first, _) = tile_ends(tile, size);
    if first < i128::from(stretch.low) {
        stretch.low
    } else {
        first as i64
    }
}

/// Puts the cells of the instances at the places of a stretch behind others: one for each tile of the last row.
fn push_cells<const D: usize>(
    frame: &Frame<'_, D>,
    rank: usize,
    stretch: &Stretch,
    cells: &mut Vec<Cell<D>>,
) -> Result<(), AllocError>
    requires frame { IsFrame D (record { table = frame.now.pred.now; schedule = frame.now.schedule.now; chunk = frame.now.chunk }) frame.now.inverse frame.now.blocks.items }
    requires stretch { IsStretch (record { table = frame.now.pred.now; schedule = frame.now.schedule.now; chunk = frame.now.chunk }) rank stretch.now }
    ensures { OnOk result (Gains (IsCellOf (record { table = frame.now.pred.now; schedule = frame.now.schedule.now; chunk = frame.now.chunk }) frame.now.inverse stretch.now) cells.old.items cells.new.items) }
{
    let size = last_size(frame.schedule);
    let first = tile_number(stretch.low, size);
    let last = tile_number(stretch.high, size);
    for tile in first..last + 1 {
        let point = stretch.point(first_in(stretch, tile, size));
        cells.push(cell_at(frame, &Best { rank, point }))?;
    }
    Ok(())
}

/// Puts the cells of a block behind those of the blocks before it.
fn push_block<const D: usize>(
    frame: &Frame<'_, D>,
    rank: usize,
    stretches: &[Stretch],
    cells: &mut Vec<Cell<D>>,
) -> Result<(), AllocError>
    requires frame { IsFrame D (record { table = frame.now.pred.now; schedule = frame.now.schedule.now; chunk = frame.now.chunk }) frame.now.inverse frame.now.blocks.items }
    requires stretches { AllByRecursion (IsStretch (record { table = frame.now.pred.now; schedule = frame.now.schedule.now; chunk = frame.now.chunk }) rank) stretches.now }
    ensures { OnOk result (Gains (IsCellAmong (record { table = frame.now.pred.now; schedule = frame.now.schedule.now; chunk = frame.now.chunk }) frame.now.inverse stretches.now) cells.old.items cells.new.items) }
{
    for stretch in stretches {
        push_cells(frame, rank, stretch, cells)?;
    }
    Ok(())
}

/// The cells of all blocks, in any order.
fn met_cells<const D: usize>(
    alloc: Global,
    frame: &Frame<'_, D>,
) -> Result<Vec<Cell<D>>, AllocError>
    requires frame { IsFrame D (record { table = frame.now.pred.now; schedule = frame.now.schedule.now; chunk = frame.now.chunk }) frame.now.inverse frame.now.blocks.items }
    ensures { IfOk result (λ cells. (cell : _) → Has cells.items cell ↔ IsMetBelow (record { table = frame.now.pred.now; schedule = frame.now.schedule.now; chunk = frame.now.chunk }) (length frame.now.blocks.items) cell) }
{
    let lows = [LEAST; D];
    let highs = [GREATEST; D];
    let mut cells = Vec::new(alloc);
    for (rank, block) in frame.blocks.iter().enumerate() {
        let stretches = block.runs(alloc, D, &lows, &highs)?;
        push_block(frame, rank, stretches.as_slice(), &mut cells)?;
    }
    Ok(cells)
}

/// The cells of a list in order, each once.
fn in_order<const D: usize>(mut cells: Vec<Cell<D>>) -> Vec<Cell<D>>
    ensures ordered { Ordered CellComes result.items }
    ensures has { (cell : _) → Has result.items cell ↔ Has cells.entry.items cell }
{
    cells.sort_unstable();
    cells.dedup();
    cells
}

/// The cells that have an instance, by phase key and then by tile.
pub(crate) fn cells_of<const D: usize>(
    alloc: Global,
    frame: &Frame<'_, D>,
) -> Result<Vec<Cell<D>>, AllocError>
    requires frame { IsFrame D (record { table = frame.now.pred.now; schedule = frame.now.schedule.now; chunk = frame.now.chunk }) frame.now.inverse frame.now.blocks.items }
    ensures { IfOk result (λ cells. AreCellsOf (record { table = frame.now.pred.now; schedule = frame.now.schedule.now; chunk = frame.now.chunk }) cells.items) }
{
    Ok(in_order(met_cells(alloc, frame)?))
}
