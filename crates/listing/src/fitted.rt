//! A nest with what its profile fits.

use domain::Prediction;
use nest_lang::Nest;

/// A nest of D loops with a prediction of it, and the greatest number of turns of a chunk.
#[derive(Clone, Copy)]
pub struct Fitted<'a, const D: usize> {
    pub nest: &'a Nest,
    pub pred: &'a Prediction<D>,
    pub length: i64,
}
