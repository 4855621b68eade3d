//! Scripts of candidates as schedules.
//!
//! A script says in which order the instances of a nest of D loops are to run (docs/SCHEDULES.md). What it means is a
//! `Schedule<D>`: a matrix, how many of its rows lead, and for each row the size of its tiles and whether it is
//! parallel. The schedule gives each padded point a phase key, a tile and a place, exactly and with floored division.
//! The crate stands on `nest_lang` for the commands of a script, and on `affine` for the matrix and its inverse.
//! The layers above judge a schedule by its rows (legality), and scan its tiles by the inverse (skeletons): a place
//! tells its point. Nothing here takes memory.
#![tactic(auto)]

mod draft;
pub mod key;
pub mod laws;
pub mod schedule;
pub mod scripts;
pub mod standards;
#[cfg(test)]
mod tests;

pub use key::Key;
pub use schedule::Schedule;
pub use scripts::schedule_of;
pub use standards::standard;
