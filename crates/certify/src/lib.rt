//! Certificates of schedules: for each thing that a legal schedule must not do, a proof that it doesn't.
//!
//! A certificate has a block for each violation that legality asks about, in the order in which it asks, and each block has
//! a refutation: sums of rows that end in a row such as -1 >= 0. `check_schedule` reads a certificate without any
//! elimination, and `laws` has what its Yes shows: the schedule keeps the order of all that conflicts in chunks of at most
//! the certificate's length, whoever made it.
//!
//! The crate stands on `refutation` (proofs by adding and their check), `dependence` (systems of a prediction, the rows of a
//! violation, and what a schedule keeps that violates none), `transform` and `domain`. A layer above can read a certificate
//! and run by a schedule that it shows.
#![tactic(auto)]

mod certificates;
mod checking;
pub mod laws;
mod violations;

pub use certificates::{BlockFault, Certificate, Claimed, ScheduleCheck};
pub use checking::check_schedule;
