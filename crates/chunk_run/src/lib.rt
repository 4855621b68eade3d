//! One chunk of turns in the order of a schedule.
//!
//! `run_chunk` keeps the words that a launched chunk is predicted to store to, and runs it phase by phase: all workers of a phase claim its tiles and verify each instance against
//! its prediction, as a crew gives them turns. It commits the chunk or rolls it back. It commits exactly where the original
//! order follows its prediction, and the state is then that of the plain run of the chunk's turns; otherwise all is as before.
//!
//! It stands on `tiles` (the plan of the chunk), `skeletons` (the instances of a tile), `phase_run` (one phase from its post
//! to its settle) and `crew` (what gives the workers their turns).
//! That the schedule's order may stand for the original one is the schedule law, from the conflict law of `dependence` and
//! the permutation law of `follow`; that following the prediction is running plainly is the chain law of `compare`. The
//! layer above goes from chunk to chunk.
#![tactic(auto)]

mod keep;
mod launch;
pub mod laws;
mod prepared;
mod run;
mod scalars;
mod walks;

pub use launch::Launch;
pub use run::{ChunkEnd, run_chunk};
