//! The fit of one datum: the line through its samples, and the tube about that line.
//!
//! A sample is a value that was observed of a datum, at the counters of an instance. The line has for each
//! counter the rise between the first two samples that are one step of this counter apart, and its constant makes
//! it meet the first sample. The tube is the least and the greatest of the residuals. The crate stands on
//! `affine`, and for one lemma on `plain_lemmas`. The layer above uses one contract of it, that of `fit_datum`: it
//! gives the line and the tube, or says why there are none. `laws` says what a line is worth: every sample lies in
//! the tube, and where the tube is (0, 0) and each counter has its step no other affine function goes through the
//! samples.
#![tactic(auto)]

mod fit;
mod index;
pub mod laws;
mod line;
mod rise;
mod sample;
mod tube;

pub use fit::fit_datum;
pub use sample::{Miss, NoFit, Sample, Tube};

#[cfg(test)]
mod tests;
