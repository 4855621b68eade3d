//! Refutations of whole-number rows: proofs by adding that no point meets them.
//!
//! A refutation is a list of sums of rows, each by the numbers of two rows that are there before it, that ends in a row
//! such as -1 >= 0. `check_rows` reads one without any elimination, and `laws` has what it shows: no whole-number point
//! meets the rows, whoever made the proof.
//!
//! The crate stands on `affine` (rows and their normal form) and `fourier_motzkin` (tidied sets of rows, and no elimination
//! of it). A layer above can certify schedules with it.
#![tactic(auto)]

mod adding;
mod checking;
pub mod laws;
mod proofs_by_adding;
#[cfg(test)]
mod tests;
mod tidying;

pub use checking::check_rows;
pub use proofs_by_adding::{Add, Checked, Refutation, Why};
