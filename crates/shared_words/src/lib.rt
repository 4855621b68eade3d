//! The words that threads share, and the seats that step on them.
//!
//! One table of atomic words holds the flag, the claims of 65,536 tiles, and the memory. A run posts a plan of tiles
//! through the one `MainSeat`, splits a `WorkSeat` off for each worker, and joins these again before it settles. Each
//! call on a seat is one load, store or swap of one word, and one step of the machine of `core_steps`: the rule of
//! the table is that its words and the views of all seats are a state of that machine, with its invariant. A seat's
//! view is ghost: what a seat holds, knows and stored costs nothing when it runs. No call waits for another seat, and
//! none but `SharedWords::new` takes memory. docs/WORDS.md has the layout and the kinds of step.
//!
//! It stands on `core_steps` for the definitions and for the lemma of each step, and on the kit's `atomic_table`. The
//! layers above use that each call is its one step, told by the clause `step`, and what a step does to the seat's
//! view, told by the clause `view`.
#![tactic(auto)]

pub mod laws;
mod main_seat;
mod steps;
#[cfg(test)]
mod tests;
mod words;
mod work_seat;

pub use main_seat::MainSeat;
pub use words::SharedWords;
pub use work_seat::WorkSeat;
