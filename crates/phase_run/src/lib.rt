//! One phase of a chunk: from its post to its end.
//!
//! `run_phase` posts the plan of a phase, lends a seat to each of its workers, hands the workers to a crew, takes the
//! seats back and settles. What main's base then is, is the follow run of the tiles' lists, one tile after another,
//! whatever the workers did beside each other; where the flag was raised there is none. Words that no tile writes are
//! as before in either case, and the crew kept one entry more.
//!
//! It stands on `verified_turns` for the workers and the law of a phase, and on `crew` for what gives them turns. The layer
//! above goes from phase to phase of a chunk.
#![tactic(auto)]

mod close;
mod lend;
mod posting;
mod run;

pub use posting::{MakeWalk, Posting};
pub use run::run_phase;
