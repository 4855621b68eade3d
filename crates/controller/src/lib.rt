//! The journey of a file: its nests, one after another, by chunks that are run speculatively.
//!
//! `journey` runs each nest from stage to stage: a profile, the judgement of what it saw, chunks by the first legal
//! candidate, and turns in original order. Each stage has a module of its own, and a contract that says where it leads in
//! the words of `journeys`. It stands on `journeys` (the definition), on `plain_interp` (turns in original order) over the
//! words of `shared_words` by a port over the main seat, on `profile` (samples and fit), `legality` and `transform` (candidates),
//! `domain` (launches), `compare` (deviations), `chunk_run` (chunks) and `report` (lines). The layer above writes the lines
//! and the outcome.
#![tactic(auto)]

mod chunk;
mod course;
mod depth;
mod file;
mod judging;
mod machine;
mod main_port;
mod nest;
mod profiles;
mod stage;
mod telling;
mod turns;

pub use file::journey;
