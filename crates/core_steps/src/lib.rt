//! The protocol of claimed tiles as a pure machine: definitions over plain data, and laws on them.
//!
//! Several workers share the words of one memory. Main posts a plan of tiles, lends each worker a seat, and takes
//! the seats back; a worker claims tiles by swapping their claim words, and loads and stores only at addresses of
//! tiles that it claimed. This crate has the state of that protocol (words, flag, claims, main's view and a view
//! for each worker), its nine kinds of step, and the invariant that every lawful step keeps; no code runs it. The module
//! `laws` states what holds over every list of lawful steps. The crate stands on no other crate of this repository.
//! The layer above puts the same words into a table that threads share, and cites these definitions and the lemma of each
//! step for its rule. `Plan` and `Tile` are made by the layers that plan a phase; a `Step` and a `View` stand in
//! definitions and as the ghost state of a seat alone.
#![tactic(auto)]

pub mod laws;
mod plan;
mod sequence;
mod step;
mod view;

pub use plan::{Plan, Tile};
pub use sequence::Sequence;
pub use step::Step;
pub use view::View;
