//! Affine forms over the counters of a nest, matrices of whole numbers, and rows of whole-number inequalities.
//! Everything is exact: no step overflows, and division rounds down. The crate stands on no crate of this
//! repository. Three layers are built on it: prediction evaluates forms (`Form::at`), schedules map points by a
//! matrix with an inverse (`Unimodular`, one to one and onto as `laws` says of the moves that make it), and elimination works on rows:
//! `Row::normal` keeps exactly the whole-number points, and a combination of rows sums as its parts do.
#![tactic(auto)]

pub mod form;
pub mod laws;
pub mod matrix;
pub mod row;
mod sums;
#[cfg(test)]
mod tests;
pub mod unimodular;

pub use form::Form;
pub use matrix::Matrix;
pub use row::Row;
pub use unimodular::Unimodular;
