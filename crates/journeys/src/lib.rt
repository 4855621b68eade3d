//! Journeys: what a speculative run of a file does and tells, as definitions.
//!
//! A run of a nest goes from stage to stage: it profiles some turns, judges what it saw, runs chunks, and runs turns in
//! original order. Each sentence on where a stage leads is one case (`specs/Stages.antt`), what is told of it is a line
//! (`specs/Tellings.antt`), and the journey of a file is that of its nests, one after another (`specs/Journeys.antt`).
//! The crate has no code. It stands on the definitions of `profile` (what turns show and what fits), of `legality` (the
//! first legal candidate), of `domain` (launches), of `compare` (deviations), of `chunk_run` (the numbers of a chunk) and of
//! `report` (lines). The layers above run a file so and write its lines.
#![tactic(auto)]

pub mod laws;
