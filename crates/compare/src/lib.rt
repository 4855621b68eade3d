//! Predictions against plain runs.
//!
//! The instances that the loops of a nest have by the expected trips are those that a prediction has for a chunk, in
//! original order. So the chain law of instances speaks of predictions: a chunk follows its prediction exactly where its
//! predicted instances, one after another, follow from its first scalars within its steps. `Compare` is a watch of a
//! plain run of a chunk and gives the chunk's deviation, exactly where it has one.
//!
//! The crate stands on `follow` (deviations, follow runs and the chain law of every forecast), `follow_chunk` (the
//! forecast that a prediction makes, tasks), `domain` (predicted instances, successors) and the plain traces of
//! `nest_lang` and `block_exec`. The layer above, which runs launched chunks, rests its commit on the laws and takes the
//! deviation of a chunk that is rolled back from `Compare`.
#![tactic(auto)]

mod compare;
mod differences;
pub mod laws;
mod occurrence;

pub use compare::Compare;
