//! What comes next in the run of a nest.

use domain::Prediction;
use nest_lang::Ending;

/// A prediction, and the number of the first candidate that is legal for it, from 1.
#[derive(Drop)]
pub struct Chosen<const D: usize> {
    pub pred: Prediction<D>,
    pub number: u32,
}

/// What comes next in the run of a nest: a profile, a chunk by what was chosen, so many turns in original order, or nothing,
/// where the run has ended so.
#[derive(Drop)]
pub enum Stage<const D: usize> {
    Profiles,
    Chunks(Chosen<D>),
    Plainly(u64),
    Over(Ending),
}
