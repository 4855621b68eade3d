//! How a run differs from what is expected of it.

ghost use Rattle.std.specs.Prelude.{◌≡◌, ◌<◌, ◌≤◌, ℕ, pos, Err, IsNone, IsOk, length, slice_index_or, FitsSigned};
ghost use Rattle.std.specs.Int.{w64};
ghost use Rattle.block_exec.specs.Halts.{finish_of};
ghost use Rattle.follow.specs.Hows.{how_of_finish, scalars_differ};
ghost use Rattle.follow.specs.Told.{told, first_said};
ghost use Rattle.follow.specs.Turnings.{turns_differ};

use crate::expected::Expected;
use block_exec::{Cut, Halt};
use nest_lang::Trap;

/// How something that was seen differs from what is expected; each pair is the expected and the seen value.
#[derive(Clone, Copy, Debug, PartialEq, Eq)]
pub enum How {
    /// A scalar as an instance begins, by number, or as its predecessor ends.
    Scalar(u8, i128, i64),
    /// The address of an access, by number; expected is the line of its interval.
    Address(u8, i128, i64),
    /// The address of an access for which nothing is expected.
    Unseen(u8, i64),
    /// The lower bound of a `for`.
    Lower(i128, i64),
    /// The number of turns of a `for`.
    Trip(i128, u64),
    /// The condition of an inner `while`.
    Condition(bool, bool),
    /// The outermost loop has no further turn.
    Ended,
    /// A step halted with a trap.
    Trap(Trap),
    /// A step was due where none was left.
    Limit,
}

/// What is expected of a head: the lower bound and the trip of a `for`, or whether the condition of a `while` holds.
#[derive(Clone, Copy, Debug, PartialEq, Eq)]
pub enum Turning {
    Bounds(i128, i128),
    Holds(bool),
}

/// What a head yields: the lower bound and the number of turns of a `for`, or whether the condition of a `while`
/// holds.
#[derive(Clone, Copy, Debug, PartialEq, Eq)]
pub(crate) enum Turns {
    Bounds(i64, u64),
    Holds(bool),
}

impl How {
    /// How what a head yields differs first, at that level.
    pub(crate) fn of_turns(level: u8, expected: Turning, yielded: Turns) -> Option<How>
        ensures { result ≡ turns_differ level expected yielded }
    {
        match (expected, yielded) {
            (Turning::Bounds(lower, trip), Turns::Bounds(from, count)) => {
                if i128::from(from) != lower {
                    Some(How::Lower(lower, from))
                } else if i128::from(count) != trip {
                    Some(How::Trip(trip, count))
                } else {
                    None
                }
            }
            (Turning::Holds(wanted), Turns::Holds(holds)) => {
                if wanted == holds {
                    None
                } else if level <= 1 {
                    Some(How::Ended)
                } else {
                    Some(How::Condition(wanted, holds))
                }
            }
            _ => None,
        }
    }

    /// How a run differs that was cut short.
    pub(crate) fn of_cut(cut: Cut, halt: Halt) -> How
        ensures { result ≡ how_of_finish (finish_of (Err cut) halt) }
    {
        match (cut, halt) {
            (Cut::Limited, _) => How::Limit,
            (Cut::Halted, Halt::Trapped(trap)) => How::Trap(trap),
            (Cut::Halted, Halt::Stopped(access, seen, Some(line))) => {
                How::Address(access, line, seen)
            }
            (Cut::Halted, Halt::Stopped(access, seen, None)) => How::Unseen(access, seen),
        }
    }

    /// The first scalar that differs from the one expected after an instance. Where there is none, each of these is
    /// expected to be an i64.
    pub(crate) fn of_scalars<E: Expected>(expected: &E, scalars: &[i64]) -> Option<How>
        requires { length scalars.now ≤ 256 }
        ensures first { result ≡ scalars_differ (E.after expected.now) 0 scalars.now }
        ensures fits { IsNone result → (k : ℕ) → k < length scalars.now → FitsSigned w64 (slice_index_or (E.after expected.now) k (pos 0)) }
    {
        for (number, scalar) in scalars.iter().enumerate() {
            let wanted = expected.scalar_after(number as u8);
            if wanted != i128::from(*scalar) {
                return Some(How::Scalar(number as u8, wanted, *scalar));
            }
        }
        None
    }
}

/// A run differs; how is said apart, so that one which doesn't makes no room for it.
#[derive(Clone, Copy, Debug, PartialEq, Eq)]
pub struct Differs;

/// A run that was cut short differs. Out of line, so that one which isn't makes no room for how.
#[cold]
#[inline(never)]
pub(crate) fn cut_short(cut: Cut, halt: &Halt, how: &mut How) -> Result<u64, Differs>
    ensures { told result how.new ≡ Err (how_of_finish (finish_of (Err cut) halt.now)) }
{
    *how = How::of_cut(cut, *halt);
    Err(Differs)
}

/// Compares the scalars with those expected after an instance, and says how the first differs that does. Where there is
/// none, each of these is expected to be an i64.
#[inline(always)]
pub(crate) fn compare_scalars<E: Expected>(
    expected: &E,
    scalars: &[i64],
    how: &mut How,
) -> Result<(), Differs>
    requires { length scalars.now ≤ 256 }
    ensures first { first_said result how.new ≡ scalars_differ (E.after expected.now) 0 scalars.now }
    ensures fits { IsOk result → (k : ℕ) → k < length scalars.now → FitsSigned w64 (slice_index_or (E.after expected.now) k (pos 0)) }
{
    if scalars.is_empty() {
        return Ok(());
    }
    compare_some(expected, scalars, how)
}

/// The same where there are scalars. Out of line, so that where there are none no room is made for how.
#[inline(never)]
fn compare_some<E: Expected>(expected: &E, scalars: &[i64], how: &mut How) -> Result<(), Differs>
    requires { length scalars.now ≤ 256 }
    ensures first { first_said result how.new ≡ scalars_differ (E.after expected.now) 0 scalars.now }
    ensures fits { IsOk result → (k : ℕ) → k < length scalars.now → FitsSigned w64 (slice_index_or (E.after expected.now) k (pos 0)) }
{
    match How::of_scalars(expected, scalars) {
        Some(first) => {
            *how = first;
            Err(Differs)
        }
        None => Ok(()),
    }
}
