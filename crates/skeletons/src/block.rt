//! Scans of the places of a block's instances.

ghost use Rattle.std.specs.Prelude.{◌≡◌, ◌<◌, ◌≤◌, ◌^◌, ◌+◌, ℕ, IfOk, OnOk, length};
ghost use Rattle.affine.specs.Inverses.{IsInverse, IsSquare};
ghost use Rattle.affine.specs.Matrices.{HasSmallEntries};
ghost use Rattle.domain.specs.Tables.{IsBlock as IsBlockForms, IsTable, block_at, depth};
ghost use Rattle.level_walk.specs.Walks.{IsBlock};
ghost use Rattle.transform.specs.Schedules.{IsSchedule, matrix};
ghost use Rattle.skeletons.specs.Cells.{IsLaunch};
ghost use Rattle.skeletons.specs.Frames.{Finds};
ghost use Rattle.skeletons.specs.Scans.{IsRowsTo};

use crate::place_list::listed_places;
use crate::places::{greatest, least};
use crate::side::Side;
use affine::{Matrix, Row};
use domain::{BlockForms, Chunk, Prediction};
use fourier_motzkin::{Ruling, bounds};
use level_walk::scans::{BlockScan, Listing, Scanning};
use std::alloc::{AllocError, Global};
use transform::Schedule;

/// A block of a prediction, a chunk, and the columns of the inverse of a schedule's matrix.
#[derive(Clone, Copy)]
pub(crate) struct Scope<'a, const D: usize> {
    pub pred: &'a Prediction<D>,
    pub chunk: Chunk,
    pub block: &'a BlockForms<D>,
    pub columns: &'a Matrix<D>,
}

/// Puts the rows of a place behind those of the places before it.
fn push_place<const D: usize>(
    scope: &Scope<'_, D>,
    place: usize,
    rows: &mut Vec<Row>,
) -> Result<(), AllocError>
    requires few { D < 7 }
    requires inside { place < D }
    requires deep { depth scope.now.pred.now ≡ D }
    requires block { IsBlockForms D scope.now.block.now }
    requires square { IsSquare D scope.now.columns.now }
    requires small { HasSmallEntries scope.now.columns.now }
    requires rows { IsRowsTo D scope.now.pred.now scope.now.chunk scope.now.block.now scope.now.columns.now place rows.old.items }
    ensures { OnOk result (IsRowsTo D scope.now.pred.now scope.now.chunk scope.now.block.now scope.now.columns.now (place + 1) rows.new.items) }
{
    let low = least(scope.pred, scope.chunk, scope.block, place);
    let high = greatest(scope.pred, scope.chunk, scope.block, place);
    rows.push(low.above(place, scope.columns))?;
    rows.push(high.below(place, scope.columns))?;
    rows.push(Side::<D>::box_above(place))?;
    rows.push(Side::<D>::box_below(place))?;
    Ok(())
}

/// The rows of a block over places.
pub(crate) fn block_rows<const D: usize>(
    alloc: Global,
    scope: &Scope<'_, D>,
) -> Result<Vec<Row>, AllocError>
    requires few { D < 7 }
    requires deep { depth scope.now.pred.now ≡ D }
    requires block { IsBlockForms D scope.now.block.now }
    requires square { IsSquare D scope.now.columns.now }
    requires small { HasSmallEntries scope.now.columns.now }
    ensures { IfOk result (λ rows. IsRowsTo D scope.now.pred.now scope.now.chunk scope.now.block.now scope.now.columns.now D rows.items) }
{
    let mut rows = Vec::new(alloc);
    for place in 0..D {
        push_place(scope, place, &mut rows)?;
    }
    Ok(rows)
}

/// How the places of a block are found: by its rows where they can be eliminated, and else as a list. Where they can't be
/// met it has none.
pub(crate) fn block_scan<const D: usize>(
    alloc: Global,
    schedule: &Schedule<D>,
    scope: &Scope<'_, D>,
    rank: usize,
) -> Result<BlockScan, AllocError>
    requires some { 1 ≤ D }
    requires few { D < 7 }
    requires table { IsTable D scope.now.pred.now }
    requires schedule { IsSchedule D schedule.now }
    requires launch { IsLaunch scope.now.pred.now scope.now.chunk }
    requires inside { rank < length scope.now.pred.now.blocks }
    requires block { scope.now.block.now ≡ block_at scope.now.pred.now rank }
    requires inverse { IsInverse D (matrix schedule.now) scope.now.columns.now }
    requires small { HasSmallEntries scope.now.columns.now }
    ensures is { IfOk result (IsBlock D) }
    ensures finds { IfOk result (Finds D (record { table = scope.now.pred.now; schedule = schedule.now; chunk = scope.now.chunk }) rank) }
{
    let rows = block_rows(alloc, scope)?;
    let scan = bounds(alloc, rows.as_slice(), D)?;
    match scan.verdict() {
        Ruling::Maybe => Ok(BlockScan::Scanned(Scanning { scan, rows })),
        Ruling::Empty => Ok(BlockScan::Listed(Listing {
            points: Vec::new(alloc),
        })),
        Ruling::Wide => Ok(BlockScan::Listed(Listing {
            points: listed_places(alloc, schedule, scope, rank)?,
        })),
    }
}
