//! The kinds of step.
use crate::plan::Plan;

/// A step of the machine. Seat 0 is main's, and workers have numbers from 1 up. `State` in the specs is what a step
/// moves; its condition, effect and answer are `Lawful`, `state_after` and `answer_of`.
#[derive(Debug, Drop)]
pub enum Step {
    /// Main begins a phase with this plan.
    Post(Plan),
    /// Main lends a seat to the worker of this number.
    Split(u32),
    /// The seat of this number loads the word at this address.
    Load(u32, u64),
    /// The seat of this number stores this value at this address.
    Store(u32, u64, i64),
    /// The seat of this number loads the flag.
    See(u32),
    /// The worker of this number sets the flag to its epoch.
    Raise(u32),
    /// The worker of this number swaps its epoch into the claim of this tile.
    Claim(u32, u32),
    /// Main takes back the seat of the worker of this number.
    Join(u32),
    /// Main ends the phase.
    Settle,
}
