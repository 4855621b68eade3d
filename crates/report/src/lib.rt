//! The texts that a run writes: how it ended, what it left, and the lines that say what happened to its turns.
//!
//! The layer stands on `nest_lang`, whose state, store and ending it writes down, on `nest_text`, whose file
//! names the scalars, and on `nest_grammar`, whose faults of texts it names in one line (`refusal_text`). Its outcome
//! part has a line for how the run ended, one for each scalar, one for each longest run of equal
//! words that aren't 0, and one for the steps. What the longest runs are is said without a loop
//! (`specs/LongestRuns.antt`), and `laws` has that each memory has exactly one list of them, so that
//! each run has exactly one outcome. The layer above takes `outcome_text` as the bytes of its answer.
//!
//! A `Line` says what happened to some turns of the outermost loop, with the words of `domain` (why a chunk is held), of
//! `follow` (how a run differs) and of `fourier_motzkin` (verdicts); a `ListingLine` is a line of a dependence listing.
//! What each says is a list of words (`specs/Lines.antt`).
#![tactic(auto)]

mod faults;
mod journey;
pub mod laws;
mod line;
mod outcome;
mod placing;
mod runs;
mod summary;
mod words;
mod written;

pub use faults::refusal_text;
pub use journey::{Journey, Options};
pub use line::{At, Line, LineUnfit, ListingLine, Spot};
pub use outcome::outcome_text;
pub use placing::block_of;
pub use runs::WordRun;
pub use summary::summary_text;
pub use written::{line_text, lines_text, listing_text};

#[cfg(test)]
mod tests;
