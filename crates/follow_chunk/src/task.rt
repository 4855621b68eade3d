//! A launched chunk of a nest, with what is predicted of it.

use domain::{Chunk, Instance, Prediction};
use follow::How;
use nest_lang::{Nest, Outer};

/// A chunk of turns of a nest, from a position of its outermost loop, with what is predicted of it. The nest is of a
/// file with so many scalars (at most 16).
#[derive(Clone, Copy)]
pub struct Task<'a, const D: usize> {
    pub nest: &'a Nest,
    pub pred: &'a Prediction<D>,
    pub scalars: u8,
    pub outer: Outer,
    pub chunk: Chunk,
}

/// The first thing that is not as it is predicted: at which instance, and how.
#[derive(Clone, Copy, Debug, PartialEq, Eq)]
pub struct Deviation<const D: usize> {
    pub at: Instance<D>,
    pub how: How,
}

/// How instances were followed: to the end, in so many steps, or to the first that differs.
#[derive(Clone, Copy, Debug, PartialEq, Eq)]
pub enum Followed<const D: usize> {
    Same { steps: u64 },
    Differs(Deviation<D>),
}
