//! What a launch answers.

use crate::instance::Instance;

/// A launched chunk: the number of its predicted instances.
#[derive(Clone, Copy, Debug, PartialEq, Eq)]
pub struct Launched {
    pub instances: u64,
}

/// Why a chunk is held.
#[derive(Clone, Copy, Debug, PartialEq, Eq)]
pub enum HeldWhy {
    /// The predicted trip of an inner loop is negative.
    Negative(i128),
    /// There are more than 65,536 instances, or more than 2,097,152 addresses are expected.
    Many,
    /// A store, by its access number from 1, is expected at an address that is no word.
    Outside(u8, i128),
    /// The expected value of a scalar, by its number from 0, is no i64.
    Scalar(u8, i128),
    /// The expected lower bound of an inner `for` is no i64.
    Lower(i128),
    /// The value of an inner `for`'s name in its last turn is no i64.
    Last(i128),
}

/// A held chunk: the first instance at which a check fails, and the first check that fails there.
#[derive(Clone, Copy, Debug, PartialEq, Eq)]
pub struct Held<const D: usize> {
    pub at: Instance<D>,
    pub why: HeldWhy,
}
