//! The ends between which the places of a block's padded points lie.

ghost use Rattle.std.specs.Prelude.{◌≡◌, ◌<◌, ◌≤◌, ◌^◌, ◌+ℤ◌, ◌-ℤ◌, pos, unsigned_abs};
ghost use Rattle.domain.specs.Tables.{IsBlock, counters, depth, turning};
ghost use Rattle.skeletons.specs.Places.{IsNarrow, greatest_side, is_turns, least_side};

use crate::side::Side;
use domain::{BlockForms, Chunk, Prediction};
use nest_lang::Part;

/// The number of counters of a block's instances.
pub(crate) fn counters<const D: usize>(pred: &Prediction<D>, block: &BlockForms<D>) -> usize
    requires { IsBlock D block.now }
    ensures value { result ≡ counters pred.now block.now }
    ensures most { result ≤ D }
{
    let level = block.level as usize;
    match block.part {
        Part::Head => {
            if pred.repeats(level - 1) {
                level
            } else {
                level - 1
            }
        }
        _ => level,
    }
}

/// The number of loops that are in a turn at a block's instances.
fn turning<const D: usize>(block: &BlockForms<D>) -> usize
    requires { IsBlock D block.now }
    ensures { result ≡ turning block.now }
{
    let level = block.level as usize;
    match block.part {
        Part::Head => (level - 1).max(1),
        _ => level,
    }
}

/// Whether the place has the number of turns of the loop before the block.
fn is_turns<const D: usize>(pred: &Prediction<D>, block: &BlockForms<D>, place: usize) -> bool
    requires { IsBlock D block.now }
    ensures { result ≡ is_turns pred.now block.now place }
{
    block.part == Part::Post && place == counters(pred, block)
}

/// The number of the chunk's last turn.
fn last_turn(chunk: Chunk) -> i128
    ensures value { result ≡ (chunk.first +ℤ chunk.turns) -ℤ pos 1 }
    ensures size { unsigned_abs result ≤ 2 ^ 80 }
{
    i128::from(chunk.first) + i128::from(chunk.turns) - 1
}

/// The least number that a place may have.
pub(crate) fn least<const D: usize>(
    pred: &Prediction<D>,
    chunk: Chunk,
    block: &BlockForms<D>,
    place: usize,
) -> Side<D>
    requires few { D < 7 }
    requires inside { place < D }
    requires deep { depth pred.now ≡ D }
    requires block { IsBlock D block.now }
    ensures value { result ≡ least_side pred.now chunk block.now place }
    ensures narrow { IsNarrow (2 ^ 40) result }
{
    if place == 0 {
        Side::number(i128::from(chunk.first))
    } else if is_turns(pred, block, place) {
        Side::trip(pred, place, 0)
    } else {
        Side::number(0)
    }
}

/// The greatest number that a place may have.
pub(crate) fn greatest<const D: usize>(
    pred: &Prediction<D>,
    chunk: Chunk,
    block: &BlockForms<D>,
    place: usize,
) -> Side<D>
    requires few { D < 7 }
    requires inside { place < D }
    requires deep { depth pred.now ≡ D }
    requires block { IsBlock D block.now }
    ensures value { result ≡ greatest_side pred.now chunk block.now place }
    ensures narrow { IsNarrow (2 ^ 40) result }
{
    if place == 0 {
        Side::number(last_turn(chunk))
    } else if place < turning(block) {
        Side::trip(pred, place, 1)
    } else if place < counters(pred, block) || is_turns(pred, block, place) {
        Side::trip(pred, place, 0)
    } else {
        Side::number(0)
    }
}
