//! Exact elimination of variables from whole-number rows, by Fourier and Motzkin.
//!
//! A row of `affine` says that a sum of coefficients times variables plus a constant is at least 0. This layer
//! stands on `affine` alone, for rows and their normal form. It decides what a set of rows says once variables are
//! eliminated from it. Its verdict is conservative: Empty means that no whole-number point meets all rows, while
//! Maybe and Wide leave that open. The layers above use the verdict (dependence systems and legality), and the rows
//! before each elimination, whose ranges scan the whole-number points (`Scan::range`). An answer depends on the set
//! of the rows alone and not on their order. Nothing here knows what the variables stand for, nor a fixed number of
//! them.
#![tactic(auto)]

pub mod elimination;
pub mod laws;
mod range;
pub mod row_set;
pub mod scans;
#[cfg(test)]
mod tests;
mod tidying;
pub mod verdicts;

pub use elimination::{Eliminated, eliminate};
pub use row_set::RowSet;
pub use scans::Scan;
pub use verdicts::{Ruling, bounds, verdict};
