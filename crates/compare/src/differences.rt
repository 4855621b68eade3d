//! How what is shown of an instance differs from what is predicted of it.

ghost use Rattle.std.specs.Prelude.{◌≡◌, ◌<◌, ◌≤◌, ◌+ℤ◌, ◌-ℤ◌, pos, int_le, Some, length, FitsSigned};
ghost use Rattle.std.specs.Int.{w128};
ghost use Rattle.nest_lang.specs.Lookups.{lies_in};
ghost use Rattle.follow.specs.Intervals.{interval_by};
ghost use Rattle.nest_lang.specs.Traces.{Observation};
ghost use Rattle.follow_chunk.specs.Predicted.{lower_at, instance_of};
ghost use Rattle.follow_chunk.specs.Tasks.{task_of};
ghost use Rattle.compare.specs.Chunks.{IsWatchable};
ghost use Rattle.compare.specs.Comparisons.{IsOfTurns};
ghost use Rattle.compare.specs.Occurrences.{occurrence_at};
ghost use Rattle.compare.specs.Kept.{kept_i64, kept_u64};
ghost use Rattle.compare.specs.Differences.{scalar_difference, address_difference, lower_difference, trip_difference, condition_difference, scalars_difference, difference};

use crate::occurrence::Occurrence;
use domain::{Instance, Prediction, What, expected};
use follow::{How, Interval};
use follow_chunk::{Task, expected_interval, expected_scalar};
use nest_lang::Seen;

/// The value where it is an i64, as each that a run shows is.
fn kept_i64(value: i128) -> i64
    ensures { result ≡ kept_i64 value }
{
    i64::try_from(value).unwrap_or(0)
}

/// The value where it is a u64, as each trip that a run shows is.
fn kept_u64(value: i128) -> u64
    ensures { pos result ≡ kept_u64 value }
{
    u64::try_from(value).unwrap_or(0)
}

/// The expected lower bound of the head of a `for`.
#[tactic(auto, unfolding(follow_chunk::specs::Predicted::lower_at))]
fn wanted_lower<const D: usize>(pred: &Prediction<D>, inst: &Instance<D>) -> i128
    requires { D < 7 }
    ensures { result ≡ lower_at pred.now inst.now }
{
    expected(pred, inst, What::Lower).unwrap_or(0)
}

/// Whether a value is line + low or above. The distance is compared, since line + low may be no i128.
fn reaches(value: i128, line: i128, low: i64) -> bool
    requires { FitsSigned w128 (value -ℤ line) }
    ensures { result ≡ int_le (line +ℤ low) value }
{
    i128::from(low) <= value - line
}

/// Whether a value is line + high or below.
fn stays_within(value: i128, line: i128, high: i64) -> bool
    requires { FitsSigned w128 (value -ℤ line) }
    ensures { result ≡ int_le value (line +ℤ high) }
{
    value - line <= i128::from(high)
}

/// Whether a value lies in an interval. One that is no i128 away from the line doesn't.
fn lies_in(interval: Interval, value: i128) -> bool
    ensures { result ≡ lies_in (interval_by (Some interval)) value }
{
    match value.checked_sub(interval.line) {
        Some(_) => {
            reaches(value, interval.line, interval.low)
                && stays_within(value, interval.line, interval.high)
        }
        None => false,
    }
}

/// How a scalar differs as an instance begins.
pub(crate) fn scalar_difference<const D: usize>(
    pred: &Prediction<D>,
    inst: &Instance<D>,
    number: u8,
    value: i128,
) -> Option<How>
    requires { D < 7 }
    ensures { result ≡ scalar_difference pred.now inst.now number value }
{
    let wanted = expected_scalar(pred, inst, number);
    if value == wanted {
        None
    } else {
        Some(How::Scalar(number, wanted, kept_i64(value)))
    }
}

/// How the address of an access differs.
pub(crate) fn address_difference<const D: usize>(
    pred: &Prediction<D>,
    inst: &Instance<D>,
    access: u8,
    value: i128,
) -> Option<How>
    requires { D < 7 }
    ensures { result ≡ address_difference pred.now inst.now access value }
{
    match expected_interval(pred, inst, access) {
        Some(interval) if lies_in(interval, value) => None,
        Some(interval) => Some(How::Address(access, interval.line, kept_i64(value))),
        None => Some(How::Unseen(access, kept_i64(value))),
    }
}

/// How the lower bound of a `for` differs.
pub(crate) fn lower_difference<const D: usize>(
    pred: &Prediction<D>,
    inst: &Instance<D>,
    value: i128,
) -> Option<How>
    requires { D < 7 }
    ensures { result ≡ lower_difference pred.now inst.now value }
{
    let wanted = wanted_lower(pred, inst);
    if value == wanted {
        None
    } else {
        Some(How::Lower(wanted, kept_i64(value)))
    }
}

/// How a trip differs.
pub(crate) fn trip_difference(wanted: i128, value: i128) -> Option<How>
    ensures { result ≡ trip_difference wanted value }
{
    if value == wanted {
        return None;
    }
    Some(How::Trip(wanted, kept_u64(value)))
}

/// How the condition of a `while` of that level differs.
pub(crate) fn condition_difference(level: u8, wanted: bool, value: i128) -> Option<How>
    ensures { result ≡ condition_difference level wanted value }
{
    if value == i128::from(wanted) {
        return None;
    }
    if level <= 1 {
        return Some(How::Ended);
    }
    Some(How::Condition(wanted, value != 0))
}

/// How the first scalar differs that does, as an instance begins.
pub(crate) fn scalars_difference<const D: usize>(
    pred: &Prediction<D>,
    inst: &Instance<D>,
    scalars: &[i64],
) -> Option<How>
    requires few { D < 7 }
    requires count { length scalars.now ≤ 256 }
    ensures { result ≡ scalars_difference pred.now inst.now 0 scalars.now }
{
    for (number, scalar) in scalars.iter().enumerate() {
        if let Some(how) = scalar_difference(pred, inst, number as u8, i128::from(*scalar)) {
            return Some(how);
        }
    }
    None
}

/// How an observation of an occurrence, which is this instance, differs.
pub(crate) fn difference<const D: usize>(
    task: &Task<'_, D>,
    occurrence: &Occurrence<'_>,
    inst: &Instance<D>,
    what: Seen,
    value: i128,
) -> Option<How>
    requires task { IsWatchable D (task_of task.now) }
    requires at { inst.now ≡ instance_of task.now.pred.now (occurrence_at occurrence.now) }
    ensures { let shown : Observation = record { at = occurrence_at occurrence.now; what = what; value = value } in IsOfTurns shown → result ≡ difference task.now.pred.now shown }
{
    match what {
        Seen::Start => None,
        Seen::Scalar(number) => scalar_difference(task.pred, inst, number, value),
        Seen::Address(access) => address_difference(task.pred, inst, access, value),
        Seen::Lower => lower_difference(task.pred, inst, value),
        Seen::Trip => trip_difference(occurrence.trip(task), value),
        Seen::Condition => {
            let wanted = occurrence.expects_turn(task);
            condition_difference(occurrence.block.level, wanted, value)
        }
    }
}
