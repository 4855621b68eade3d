//! The language of nests: its tree, its values, its states, and what a nest means.
//!
//! A nest is a list of loops, the outermost first, each with a head and with the statements before
//! and after the loop inside it. This crate has the types of the tree, the arithmetic of its values,
//! the state that a nest reads and changes, and the budget of steps that a run counts down. It
//! stands on `plain_lemmas` and on the kit's `sqlite_items` (trees that lead back to themselves) and `arrayvec`.
//!
//! Its `specs/` hold the meaning that every layer above cites: the *trace* of a block, with one entry
//! for each step, the trace of a nest, and the *plain run*, which is that trace cut after so many
//! entries. Nothing here runs a nest; `block_exec` and `plain_interp` do, and their contracts say that
//! they give these definitions. `laws` has what holds of the definitions themselves.
#![tactic(auto)]

mod accesses;
mod blocks;
mod budget;
mod command;
pub mod laws;
mod observe;
mod state;
mod tree;
mod value;

pub use budget::{Budget, Ending, Turned};
pub use command::Command;
pub use observe::{Seen, Stop};
pub use state::{Outer, State};
pub use tree::{
    Access, AccessKind, AccessRef, BlockRef, Expr, Head, Loop, Nest, Op, Part, Place, Stmt, Trap,
};
pub use value::{apply, is_i64, negate, trip_of, value_of_turn};
