//! The top call: arguments and a source in, an answer into a sink, a status out.
//!
//! `nest_run` takes the arguments of the command line, reads a text from a source where they are an
//! invocation that reads one, and puts the answer into a sink, whole or, after a fault of the sink, a front of it.
//! It begins with `nest_alone`, which does the modes that run no journey by itself. Each
//! mode has a module of its own (`plain`, `speculative` for mode `run`, `check`, `deps`, `generated` for mode `gen`).
//! The crate stands on `command_line` (what the arguments say), `nest_text` (what a text reads as), `nest_gen`
//! (generated files), `canonical` (the canonical text of a file), `plain_interp` (the plain run), `controller`
//! (journeys), `crew` (who gives the workers of a phase their turns), `listing` (dependence listings), `report`
//! (outcomes, lines, summaries and refusals as text) and `nest_io` (sources and sinks with counted faults).
//!
//! Its contract is the promise of the product: the bytes are exactly those of the *answer* that `specs/Answers.antt`
//! defines, unless a counted fault or want of memory replaces it, and the crew's list grows by the handed record of the
//! journey, as `specs/HandedOver.antt` defines it. `nest_exit` is the same with the exit of the status; `nest_main`
//! runs it over the standard streams.
#![tactic(auto)]

mod alone;
mod answer;
mod check;
mod deps;
mod generated;
pub mod laws;
mod options;
mod plain;
mod run;
mod speculative;
mod status;
mod unanswered;

pub use alone::nest_alone;
pub use run::{nest_exit, nest_run};
pub use status::Status;

#[cfg(test)]
mod tests;
