//! Dependence: which instances of a launched chunk conflict, as systems of rows, and what a schedule keeps that
//! violates none of them.
//!
//! For two accesses with forms, at least one of them a store, a system says in whole-number inequalities that an
//! instance of the first one's block comes before an instance of the second one's in a chunk of at most L turns, and
//! that the intervals about their addresses meet. A schedule is legal where no system can be met together with a row
//! that the schedule violates. The definitions stand in specs: Comparisons (what a row says), Systems (which systems
//! there are, in order), Legality (what a schedule violates) and Laws.
//!
//! The crate stands on `domain` (tables, instances, footprints, launched chunks), on `transform` (schedules), on
//! `fourier_motzkin` (verdicts on rows) and on `orders` (lists in order). The layer above uses the laws.
#![tactic(auto)]

mod comparison;
pub mod laws;
mod pairs;
mod places;
mod rows;
mod sums;
mod violations;

pub use pairs::{System, refs, systems, systems_of, variables};
pub use violations::{Side, violation};
