//! The plain interpreter: nests, turn by turn, in original order.
//!
//! It runs the loops of a nest over a port, under a budget of steps and a watch, and gives the *plain
//! run* that `nest_lang` defines: the store, how it finished, the steps, and what the watch was shown,
//! in order. It stands on `block_exec`, which runs one block or one head. The layers above run whole
//! nests over one budget by `run_nest`, and some turns of the outermost loop by `enter` and `run_turns`,
//! as profiles and plain chunks do. Nothing here takes memory, and the time is
//! linear in the steps.
#![tactic(auto)]

mod loops;
mod outer;
mod plain;

pub use outer::{Entered, enter, run_turns};
pub use plain::{run_nest, run_nest_by};
