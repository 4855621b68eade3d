//! The runs of points that are listed.

ghost use Rattle.std.specs.Prelude.{◌≡◌, ◌<◌, ◌≤◌, ◌++◌, ◌+ℤ◌, ℤ, pos, List, [], ◌∷◌, IfOk, OnOk, IsTrue, false, length, None};
ghost use Rattle.level_walk.specs.Listed.{left_after};
ghost use Rattle.level_walk.specs.Listings.{IsListing, listed_in};
ghost use Rattle.level_walk.specs.Stretches.{AreRunsOf, IsBehind, point_at};

use crate::cells::is_in_box;
use crate::cursor::{Point, copied};
use crate::runs::Run;
use std::alloc::{AllocError, Global};
use std::cmp::Ordering;

/// The run of a point alone.
fn alone(point: &[i64]) -> Run
    requires some { 0 < length point.now }
    requires few { length point.now ≤ 16 }
    ensures one { result.low ≡ result.high }
    ensures point { point.now ≡ point_at result result.low }
{
    let last = point.len() - 1;
    Run {
        front: copied(&point[..last]),
        low: point[last],
        high: point[last],
    }
}

/// Whether a value is the next one after another.
fn is_next(value: i64, other: i64) -> bool
    ensures next { IsTrue result → value +ℤ pos 1 ≡ other }
    ensures apart { result ≡ false → value +ℤ pos 1 ≡ other → ⊥ }
{
    if value < other {
        value + 1 == other
    } else {
        false
    }
}

/// Whether the points of a run go on with those of another one.
fn goes_on(run: &Run, next: &Run) -> bool
    ensures on { IsTrue result → (run.now.front.items ≡ next.now.front.items) × (run.now.high +ℤ pos 1 ≡ next.now.low) }
    ensures apart { result ≡ false → run.now.front.items ≡ next.now.front.items → run.now.high +ℤ pos 1 ≡ next.now.low → ⊥ }
{
    match run.front.as_slice().cmp(next.front.as_slice()) {
        Ordering::Equal => is_next(run.high, next.low),
        _ => false,
    }
}

/// Joins a run of one point, which comes after the others, to them.
fn join(runs: &mut Vec<Run>, next: Run) -> Result<(), AllocError>
    ensures { (list : List (List ℤ)) → AreRunsOf list runs.old.items → IsBehind list next → OnOk result (AreRunsOf (list ++ point_at next next.low ∷ []) runs.new.items) }
{
    let count = runs.len();
    if 0 < count && goes_on(&runs[count - 1], &next) {
        runs[count - 1].high = next.high;
        Ok(())
    } else {
        runs.push(next)?;
        Ok(())
    }
}

/// The runs of the listed points in a box, by their first points.
pub fn listed_runs(
    alloc: Global,
    variables: usize,
    points: &[Point],
    lows: &[i64],
    highs: &[i64],
) -> Result<Vec<Run>, AllocError>
    requires listing { IsListing variables points.now }
    requires lows { length lows.now ≡ variables }
    requires highs { length highs.now ≡ variables }
    ensures { IfOk result (λ runs. AreRunsOf (left_after None (listed_in lows.now highs.now points.now)) runs.items) }
{
    let mut runs = Vec::new(alloc);
    for point in points {
        if is_in_box(lows, highs, point.as_slice()) {
            join(&mut runs, alone(point.as_slice()))?;
        }
    }
    Ok(runs)
}
