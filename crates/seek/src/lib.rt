//! Seek: the first legal schedule of a stated list.
//!
//! For each number of loops there is a list of scripts, which skew the rows by the first one in all ways with factors from
//! 0 to 3, and do the same behind an exchange of the first two rows. `listed` gives the script of a number, `seek` the least
//! number whose schedule is legal, with the refusals of those before it, and `confirm` looks again at one refusal, by the one
//! system that it names. The list is defined in `specs/ScheduleLists.antt`; `laws` has what is sought, in the words of
//! legality.
//!
//! The crate stands on `legality` (judgements), `dependence` (systems and their violations) and `transform` (schedules). The
//! layer above tells a user which schedule of the list a nest can have.
#![tactic(auto)]

mod confirming;
pub mod laws;
mod schedules;
mod script;
mod searching;

pub use confirming::confirm;
pub use schedules::listed;
pub use script::Script;
pub use searching::{Sought, seek};
