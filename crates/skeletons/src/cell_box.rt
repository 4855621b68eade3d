//! Cells as boxes of places.

ghost use Rattle.std.specs.Prelude.{◌≡◌, ◌<◌, ◌≤◌, ◌^◌, ◌≤ℤ◌, ◌*ℤ◌, ◌+ℤ◌, ◌-ℤ◌, ◌↔◌, ℕ, ℤ, pos, List, if◌then◌else◌, unsigned_abs};
ghost use Rattle.std.specs.Int.{int_div_euclid};
ghost use Rattle.transform.specs.Schedules.{IsSchedule, wave, wide_tile};
ghost use Rattle.skeletons.specs.Boxes.{AgreesAt, IsBoxOf, IsRangeOf};

use crate::cell::Cell;
use transform::Schedule;

/// How far from 0 the numbers of a place are scanned.
const FARTHEST: i128 = 1 << 59;

/// The least and the greatest number of a place, row by row.
#[derive(Clone, Copy)]
pub(crate) struct CellBox<const D: usize> {
    pub lows: [i64; D],
    pub highs: [i64; D],
}

/// The numbers of a leading row.
fn lead_range(lead: i64, tile: i64) -> (i64, i64)
    ensures { IsRangeOf (λ z. (lead ≡ z) × (tile ≡ pos 0)) result.0 result.1 }
{
    let number = i128::from(lead);
    if tile == 0 && -FARTHEST <= number && number <= FARTHEST {
        (lead, lead)
    } else {
        (1, 0)
    }
}

/// The first and the last number of a tile.
pub(crate) fn tile_ends(tile: i64, size: u32) -> (i128, i128)
    requires { size ≤ 65536 }
    ensures first { result.0 ≡ pos size *ℤ tile }
    ensures last { result.1 ≡ (pos size *ℤ tile +ℤ pos size) -ℤ pos 1 }
{
    let first = i128::from(size) * i128::from(tile);
    (first, first + i128::from(size) - 1)
}

/// The numbers of a row of the band.
fn tile_range(lead: i64, tile: i64, size: u32) -> (i64, i64)
    requires some { 0 < size }
    requires limit { size ≤ 65536 }
    ensures { IsRangeOf (λ z. (lead ≡ pos 0) × (tile ≡ int_div_euclid z (pos size))) result.0 result.1 }
{
    let (first, last) = tile_ends(tile, size);
    if lead != 0 {
        return (1, 0);
    }
    if first > FARTHEST {
        return (1, 0);
    }
    if last < -FARTHEST {
        return (1, 0);
    }
    (first as i64, last as i64)
}

/// The numbers of a row.
fn row_range<const D: usize>(schedule: &Schedule<D>, cell: &Cell<D>, row: usize) -> (i64, i64)
    requires inside { row < D }
    requires is { IsSchedule D schedule.now }
    ensures { IsRangeOf (AgreesAt schedule.now cell.now row) result.0 result.1 }
{
    if row < schedule.seq() {
        lead_range(cell.lead[row], cell.tile[row])
    } else {
        tile_range(cell.lead[row], cell.tile[row], schedule.size(row))
    }
}

/// What a row of the band adds to the wave.
fn share(is_parallel: bool, tile: i64) -> i128
    ensures value { result ≡ (if is_parallel then pos 0 else tile) }
    ensures size { unsigned_abs result ≤ 2 ^ 63 }
{
    if is_parallel { 0 } else { i128::from(tile) }
}

/// The wave of the points of a tile.
fn tile_wave<const D: usize>(schedule: &Schedule<D>, tile: &[i64; D]) -> i128
    requires few { D < 7 }
    requires is { IsSchedule D schedule.now }
    ensures { (p : List ℤ) → wide_tile schedule.now p ≡ tile.now → result ≡ wave schedule.now p }
{
    let mut wave = 0;
    for row in schedule.seq()..D {
        wave += share(schedule.is_parallel(row), tile[row]);
    }
    wave
}

/// The box of a cell. It is empty where the cell has a tile number in a leading row, a leading number in the band, or
/// another wave than its tile.
pub(crate) fn cell_box<const D: usize>(schedule: &Schedule<D>, cell: &Cell<D>) -> CellBox<D>
    requires some { 0 < D }
    requires few { D < 7 }
    requires is { IsSchedule D schedule.now }
    ensures { IsBoxOf D schedule.now cell.now result.lows result.highs }
{
    let mut found = CellBox {
        lows: [1; D],
        highs: [0; D],
    };
    if tile_wave(schedule, &cell.tile) != i128::from(cell.wave) {
        return found;
    }
    for row in 0..D {
        let (low, high) = row_range(schedule, cell, row);
        found.lows[row] = low;
        found.highs[row] = high;
    }
    found
}
