//! The forms of a prediction that systems speak of: the counters of a block's instances, the most that they reach, the
//! places of the padded point, and the rows of a schedule at it.

ghost use Rattle.std.specs.Prelude.{◌≡◌, ◌<◌, ◌≤◌, ◌^◌, if◌then◌else◌, map};
ghost use Rattle.std.specs.List.{range_with_len};
ghost use Rattle.affine.specs.Forms.{AllWithinSize};
ghost use Rattle.domain.specs.Tables.{IsBlock, IsTable, counters, depth, form_or_zero, is_post, trip_form, turning, zero_form};
ghost use Rattle.dependence.specs.Systems.{greatest, place_form};
ghost use Rattle.dependence.specs.Legality.{combined};
ghost use Rattle.dependence.specs.Terms.{IsShort};

use crate::comparison::Sum;
use affine::Form;
use domain::{BlockForms, Prediction};
use nest_lang::Part;

/// The number of counters of a block's instances.
pub(crate) fn counters<const D: usize>(pred: &Prediction<D>, block: &BlockForms<D>) -> usize
    requires { IsBlock D block.now }
    ensures value { result ≡ counters pred.now block.now }
    ensures most { result ≤ D }
{
    let level = block.level as usize;
    match block.part {
        Part::Head => {
            if pred.repeats(level - 1) {
                level
            } else {
                level - 1
            }
        }
        _ => level,
    }
}

/// The number of loops that are in a turn at a block's instances.
fn turning<const D: usize>(block: &BlockForms<D>) -> usize
    requires { IsBlock D block.now }
    ensures { result ≡ turning block.now }
{
    let level = block.level as usize;
    match block.part {
        Part::Head => (level - 1).max(1),
        _ => level,
    }
}

/// A form, or 0 where there is none.
pub(crate) fn form_or_zero<const D: usize>(form: &Option<Form<D>>) -> Sum<D>
    ensures value { result ≡ form_or_zero D form.now }
    ensures short { IsShort (2 ^ 63) result }
{
    match form {
        Some(form) => Sum::of(form),
        None => Sum::zero(),
    }
}

/// The trip of the loop inside so many others, over the counters of these alone.
fn trip_sum<const D: usize>(pred: &Prediction<D>, around: usize) -> Sum<D>
    requires table { IsTable D pred.now }
    requires inside { around < D }
    ensures value { result ≡ trip_form pred.now around }
    ensures short { IsShort (2 ^ 63) result }
{
    form_or_zero(&pred.level(around).trip).cut(around)
}

/// The most that an inner counter of a block's instances reaches.
pub(crate) fn greatest_sum<const D: usize>(
    pred: &Prediction<D>,
    block: &BlockForms<D>,
    place: usize,
) -> Sum<D>
    requires table { IsTable D pred.now }
    requires block { IsBlock D block.now }
    requires inside { place < D }
    ensures value { result ≡ greatest pred.now block.now place }
    ensures short { IsShort (2 ^ 99) result }
{
    if place < turning(block) {
        trip_sum(pred, place).shifted(-1)
    } else {
        trip_sum(pred, place)
    }
}

/// A place of the padded point of a block's instances in a launched chunk.
pub(crate) fn place_sum<const D: usize>(
    pred: &Prediction<D>,
    block: &BlockForms<D>,
    place: usize,
) -> Sum<D>
    requires table { IsTable D pred.now }
    requires block { IsBlock D block.now }
    requires inside { place < D }
    ensures value { result ≡ place_form pred.now block.now place }
    ensures short { IsShort (2 ^ 63) result }
{
    let counters = counters(pred, block);
    if place < counters {
        Sum::counter(place)
    } else if place > counters {
        Sum::zero()
    } else {
        after_counters(pred, block.part, place)
    }
}

/// The place after the counters: the trip of the inner loop for a block after it, and else 0.
fn after_counters<const D: usize>(pred: &Prediction<D>, part: Part, place: usize) -> Sum<D>
    requires table { IsTable D pred.now }
    requires inside { place < D }
    ensures value { result ≡ (if is_post part then trip_form pred.now place else zero_form D) }
    ensures short { IsShort (2 ^ 63) result }
{
    match part {
        Part::Post => trip_sum(pred, place),
        _ => Sum::zero(),
    }
}

/// A row of a matrix at the padded point of a block's instances. Its numbers are at most 2^20 in size.
pub(crate) fn row_sum<const D: usize>(
    pred: &Prediction<D>,
    block: &BlockForms<D>,
    row: &[i64; D],
) -> Sum<D>
    requires table { IsTable D pred.now }
    requires block { IsBlock D block.now }
    requires row { AllWithinSize (2 ^ 20) row.now }
    ensures value { result ≡ combined (depth pred.now) row.now (map (place_form pred.now block.now) (range_with_len 0 (depth pred.now))) }
    ensures short { IsShort (2 ^ 98) result }
{
    let mut sum = Sum::zero();
    for place in (0..D).rev() {
        sum = place_sum(pred, block, place).times_plus(row[place], &sum);
    }
    sum
}
