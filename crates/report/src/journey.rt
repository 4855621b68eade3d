//! What a journey is made with, and what it gives.

use crate::line::Line;
use nest_lang::{Ending, State};

/// What a journey is made with.
#[derive(Clone, Copy, Debug, PartialEq, Eq)]
pub struct Options {
    /// The workers, 1 to 64.
    pub workers: u32,
    /// The turns of a chunk, 1 to 1,024.
    pub chunk: i64,
    /// The turns of a profile, 2 to 64.
    pub sample: i64,
    /// The steps of a run, at most 2^32.
    pub steps: u64,
}

/// A journey: its lines, and the outcome.
#[derive(Debug, Drop)]
pub struct Journey {
    pub lines: Vec<Line>,
    pub state: State,
    pub ending: Ending,
    pub steps: u64,
}
