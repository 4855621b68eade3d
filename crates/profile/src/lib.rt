//! What the first turns of a nest show, and the forms of its data.
//!
//! A `Sampler` is a watch that keeps the observations of the turns that it watched, in order, in about four words
//! each. What it kept is a `Samples`, which contracts see as the list of these observations. `Samples::fit_of` is
//! the fit of one datum of a block: of the samples that this list has of the datum, by `line_fit`. `fit` is that of a
//! whole nest: a prediction, or the first datum that has no fit. `first_profile` enters the outermost loop of a nest and runs
//! its first turns under a sampler: there is no profile, it did not go through, or it went through with these observations
//! (`specs/FirstProfiles`); `laws` has that it is exactly one of these.
//!
//! The crate stands on `block_exec` for the watch, on `plain_interp` for turns in original order, on `nest_lang` for blocks
//! and observations, on `line_fit` and `affine` for lines, and on `domain` for predictions. The layers above list or run
//! chunks of turns with what `fit` gives.
#![tactic(auto)]

mod bounds;
mod first_turns;
mod gather;
pub mod laws;
mod log;
mod nest_fit;
mod reach;
mod sampler;
mod site;
mod unfit;

pub use first_turns::{FirstProfile, first_profile};
pub use nest_fit::fit;
pub use sampler::{Sampler, Samples};
pub use unfit::{FitEnd, Unfit, UnfitWhy};

#[cfg(test)]
mod tests;
