//! Crews: what gives the workers of a phase their turns until each has finished.
//!
//! A `Crew` keeps a list of what was handed to it, one entry for each phase. `ThreadCrew` runs them on threads where
//! the work is worth it, `LineCrew` one after another, and `ScriptCrew` gives single turns by a list. All run the jobs
//! of a slice by the free functions of `jobs`, and none takes memory for it.
//!
//! It stands on `verified_turns` for the workers. The layer above reserves room for the phases of a chunk, and hands
//! the workers of each phase to `Crew::work`.
#![tactic(auto)]

mod handed;
mod jobs;
mod line_crew;
mod script_crew;
mod thread_crew;

pub use handed::{Crew, Handed, Way};
pub use jobs::{Gate, Job, OpenGate, beside, line, script, total_steps};
pub use line_crew::LineCrew;
pub use script_crew::ScriptCrew;
pub use thread_crew::ThreadCrew;
