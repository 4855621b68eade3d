//! The walk of a block in plain numbers, which can be copied.

ghost use Rattle.std.specs.Prelude.{◌≡◌, ◌<◌, ◌≤◌, ◌++◌, ◌+◌, true, false, IfSome, IsTrue, ℕ, ℤ, List, [], ◌∷◌, drop, length, take, MatchOption, Some, None};
ghost use Rattle.level_walk.specs.Spaces.{Space, points};
ghost use Rattle.level_walk.specs.Lattices.{FitsCell, in_cell};
ghost use Rattle.level_walk.specs.States.{StateStands, head_of, place_of, run_of, state_left};

use crate::blocks::Block;
use crate::cells::{resume_cell, walk_cell};
use crate::cursor::{Cursor, Point};
use crate::runs::Run;
use affine::Row;
use arrayvec::ArrayVec;
use fourier_motzkin::Scan;

/// The walk of a block: its place among the fronts, and the run that was begun.
#[derive(Clone, Copy)]
pub struct State {
    at: [i64; 6],
    last: [i64; 6],
    depth: usize,
    done: bool,
    front: [i64; 6],
    width: usize,
    low: i64,
    high: i64,
    begun: bool,
}

/// The walk of a block that isn't there.
pub fn ended() -> State
    ensures place { place_of result ≡ record { at = []; last = []; done = true } }
    ensures run { run_of result ≡ None }
    ensures head { head_of result ≡ None }
    ensures depth { result.depth ≡ 0 }
    ensures width { result.width ≡ 0 }
{
    State {
        at: [0; 6],
        last: [0; 6],
        depth: 0,
        done: true,
        front: [0; 6],
        width: 0,
        low: 0,
        high: 0,
        begun: false,
    }
}

/// The first values of an array.
fn first_values(values: &[i64; 6], count: usize) -> Point
    requires { count ≤ 6 }
    ensures { result.items ≡ take count values.now }
{
    let mut point = ArrayVec::new();
    for level in 0..count {
        point.push(values[level]);
    }
    point
}

/// An array that begins with the values.
fn array_of(values: &[i64]) -> [i64; 6]
    requires { length values.now ≤ 6 }
    ensures { take (length values.now) result ≡ values.now }
{
    let mut array = [0; 6];
    for (level, value) in values.iter().enumerate() {
        array[level] = *value;
    }
    array
}

impl State {
    /// The place among the fronts.
    fn cursor(&self) -> Cursor
        requires { self.now.depth ≤ 6 }
        ensures { result ≡ place_of self.now }
    {
        Cursor::resume(
            first_values(&self.at, self.depth),
            first_values(&self.last, self.depth),
            self.done,
        )
    }

    /// The run that was begun.
    fn run(&self) -> Option<Run>
        requires { self.now.width ≤ 6 }
        ensures { result ≡ run_of self.now }
    {
        if self.begun {
            Some(Run {
                front: first_values(&self.front, self.width),
                low: self.low,
                high: self.high,
            })
        } else {
            None
        }
    }
}

/// The state of a walk.
fn packed(cursor: &Cursor, run: &Option<Run>) -> State
    requires at { length cursor.now.at ≤ 6 }
    requires last { length cursor.now.last ≡ length cursor.now.at }
    requires front { IfSome run.now (λ run. length run.front.items ≤ 6) }
    ensures depth { result.depth ≤ 6 }
    ensures width { result.width ≤ 6 }
    ensures place { place_of result ≡ cursor.now }
    ensures run { run_of result ≡ run.now }
{
    let state = placed(cursor);
    match run {
        Some(run) => with_run(state, run),
        None => state,
    }
}

/// The state at a place, without a run.
fn placed(cursor: &Cursor) -> State
    requires at { length cursor.now.at ≤ 6 }
    requires last { length cursor.now.last ≡ length cursor.now.at }
    ensures depth { result.depth ≤ 6 }
    ensures width { result.width ≤ 6 }
    ensures place { place_of result ≡ cursor.now }
    ensures run { run_of result ≡ None }
{
    State {
        at: array_of(cursor.at()),
        last: array_of(cursor.last()),
        depth: cursor.at().len(),
        done: cursor.is_done(),
        ..ended()
    }
}

/// The state with a run.
fn with_run(state: State, run: &Run) -> State
    requires depth { state.depth ≤ 6 }
    requires front { length run.now.front.items ≤ 6 }
    ensures depth { result.depth ≤ 6 }
    ensures width { result.width ≤ 6 }
    ensures place { place_of result ≡ place_of state }
    ensures run { run_of result ≡ Some run.now }
{
    State {
        front: array_of(run.front.as_slice()),
        width: run.front.len(),
        low: run.low,
        high: run.high,
        begun: true,
        ..state
    }
}

/// The first point that is left.
pub fn head(state: &State) -> Option<Point>
    requires { state.now.width ≤ 6 }
    ensures { result ≡ head_of state.now }
{
    if state.begun {
        let mut point = first_values(&state.front, state.width);
        point.push(state.low);
        Some(point)
    } else {
        None
    }
}

/// The state with this first point, and no place.
pub fn with_head(head: Option<Point>) -> State
    requires { IfSome head (λ point. (0 < length point.items) × (length point.items ≤ 6)) }
    ensures width { result.width ≤ 6 }
    ensures head { head_of result ≡ head }
{
    match head {
        Some(point) => at_point(point),
        None => ended(),
    }
}

/// The state with this first point.
fn at_point(point: Point) -> State
    requires some { 0 < length point.items }
    requires few { length point.items ≤ 6 }
    ensures width { result.width ≤ 6 }
    ensures head { head_of result ≡ Some point }
{
    let mut front = point;
    match front.pop() {
        Some(low) => State {
            front: array_of(front.as_slice()),
            width: front.len(),
            low,
            high: low,
            begun: true,
            ..ended()
        },
        None => ended(),
    }
}

/// The start of the walk over the points of a cell.
pub fn started(scan: &Scan, rows: &[Row], lows: &[i64], highs: &[i64]) -> State
    requires few { length scan.now.levels ≤ 6 }
    requires fits { FitsCell scan.now rows.now lows.now highs.now }
    ensures stands { StateStands (in_cell (length scan.now.levels) rows.now lows.now highs.now) result }
    ensures left { let space = in_cell (length scan.now.levels) rows.now lows.now highs.now in state_left space result ≡ points space space.levels [] }
{
    let walk = walk_cell(scan, rows, lows, highs);
    packed(walk.cursor(), walk.run())
}

/// Takes the first point off the run, where another one follows; else it is false, and the state stays.
fn advance(state: &mut State) -> bool
    ensures stands { IsTrue result → (s : Space) → StateStands s state.old → StateStands s state.new }
    ensures left { IsTrue result → (s : Space) → StateStands s state.old → state_left s state.new ≡ drop 1 (state_left s state.old) }
    ensures stays { result ≡ false → state.new ≡ state.old }
{
    if state.begun && state.low < state.high {
        state.low += 1;
        true
    } else {
        false
    }
}

/// Takes the first point off the walk.
pub fn step(scan: &Scan, rows: &[Row], lows: &[i64], highs: &[i64], state: &mut State)
    requires fits { FitsCell scan.now rows.now lows.now highs.now }
    requires stands { StateStands (in_cell (length scan.now.levels) rows.now lows.now highs.now) state.old }
    ensures stands { StateStands (in_cell (length scan.now.levels) rows.now lows.now highs.now) state.new }
    ensures left { let space = in_cell (length scan.now.levels) rows.now lows.now highs.now in state_left space state.new ≡ drop 1 (state_left space state.old) }
{
    if !advance(state) {
        *state = refilled(scan, rows, lows, highs, state);
    }
}

/// The same by the walk that the state stands for.
fn refilled(scan: &Scan, rows: &[Row], lows: &[i64], highs: &[i64], state: &State) -> State
    requires fits { FitsCell scan.now rows.now lows.now highs.now }
    requires stands { StateStands (in_cell (length scan.now.levels) rows.now lows.now highs.now) state.now }
    ensures stands { StateStands (in_cell (length scan.now.levels) rows.now lows.now highs.now) result }
    ensures left { let space = in_cell (length scan.now.levels) rows.now lows.now highs.now in state_left space result ≡ drop 1 (state_left space state.now) }
{
    let mut walk = resume_cell(scan, rows, lows, highs, state.cursor(), state.run());
    walk.take();
    packed(walk.cursor(), walk.run())
}
