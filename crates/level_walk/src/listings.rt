//! The points of a block that are listed in another order.

ghost use Rattle.std.specs.Prelude.{◌≡◌, ◌<◌, ◌≤◌, ◌&&◌, ℕ, ℤ, List, [], length, drop, if◌then◌else◌, IfSome, Some, None};
ghost use Rattle.level_walk.specs.Lattices.{in_box};
ghost use Rattle.level_walk.specs.Listed.{is_after, least_after, left_after, lesser};
ghost use Rattle.level_walk.specs.States.{head_of};
ghost use Rattle.level_walk.specs.Listings.{IsListing, after_head, items_of, listed_in};

use crate::cells::is_in_box;
use crate::cursor::{Point, copied};
use crate::states::{State, head, with_head};
use std::cmp::Ordering;

/// The start: the least point in the box.
pub fn started_listing(variables: usize, points: &[Point], lows: &[i64], highs: &[i64]) -> State
    requires listing { IsListing variables points.now }
    requires lows { length lows.now ≡ variables }
    requires highs { length highs.now ≡ variables }
    ensures width { result.width ≤ 6 }
    ensures left { after_head (head_of result) (listed_in lows.now highs.now points.now) ≡ left_after None (listed_in lows.now highs.now points.now) }
{
    with_head(least(variables, points, lows, highs, &None))
}

/// The walk once its first point is taken off: the least point after it.
pub fn moved_listing(
    variables: usize,
    points: &[Point],
    lows: &[i64],
    highs: &[i64],
    state: &State,
) -> State
    requires listing { IsListing variables points.now }
    requires lows { length lows.now ≡ variables }
    requires highs { length highs.now ≡ variables }
    requires width { state.now.width ≤ 6 }
    ensures width { result.width ≤ 6 }
    ensures left { after_head (head_of result) (listed_in lows.now highs.now points.now) ≡ drop 1 (after_head (head_of state.now) (listed_in lows.now highs.now points.now)) }
{
    let last = head(state);
    if last.is_some() {
        with_head(least(variables, points, lows, highs, &last))
    } else {
        *state
    }
}

/// The least point in the box after the last one.
fn least(
    variables: usize,
    points: &[Point],
    lows: &[i64],
    highs: &[i64],
    last: &Option<Point>,
) -> Option<Point>
    requires listing { IsListing variables points.now }
    requires lows { length lows.now ≡ variables }
    requires highs { length highs.now ≡ variables }
    ensures { items_of result ≡ least_after (items_of last.now) None (listed_in lows.now highs.now points.now) }
{
    let mut best = None;
    for point in points {
        if is_in_box(lows, highs, point.as_slice()) {
            best = bettered(best, point, last);
        }
    }
    best
}

/// The lesser of the best so far and a point, where that comes after the last one.
fn bettered(best: Option<Point>, point: &Point, last: &Option<Point>) -> Option<Point>
    ensures { items_of result ≡ (if is_after (items_of last.now) point.now.items then lesser (items_of best) point.now.items else items_of best) }
{
    if comes_after(last, point) {
        lesser_of(best, point)
    } else {
        best
    }
}

/// Whether a point comes after the last one.
fn comes_after(last: &Option<Point>, point: &Point) -> bool
    ensures { result ≡ is_after (items_of last.now) point.now.items }
{
    match last {
        None => true,
        Some(last) => match last.as_slice().cmp(point.as_slice()) {
            Ordering::Less => true,
            _ => false,
        },
    }
}

/// The lesser of the best so far and a point.
fn lesser_of(best: Option<Point>, point: &Point) -> Option<Point>
    ensures { items_of result ≡ lesser (items_of best) point.now.items }
{
    match best {
        None => Some(copied(point.as_slice())),
        Some(best) => match point.as_slice().cmp(best.as_slice()) {
            Ordering::Less => Some(copied(point.as_slice())),
            _ => Some(best),
        },
    }
}
