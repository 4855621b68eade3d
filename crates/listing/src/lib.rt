//! Dependence listings: what the first turns of each nest show, what depends on what, and which candidates keep it.
//!
//! The layer takes a file and its options. For each nest it profiles the first turns, fits a form to each datum, lists the
//! systems of conflicting accesses that may be met, and judges each candidate. What the lines are is said in one clause for
//! each of these cases (`specs/Listings.antt`), and `laws` has that a file has exactly one listing. It stands on `profile`
//! (first profiles and fits), on `legality` and `transform` (systems and schedules), on `plain_interp` (the
//! run of a nest before the next one), on `nest_text` (the file) and on `report` (lines). The layer above writes the lines
//! that `listing` gives.
#![tactic(auto)]

mod candidates;
mod dependences;
mod files;
mod fitted;
mod forms;
pub mod laws;
mod nests;
mod samples;
mod task;

pub use files::listing;
