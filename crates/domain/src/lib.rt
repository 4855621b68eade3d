//! What is expected of the instances of a nest, and when a chunk of turns may be launched.
//!
//! A prediction has the loops of a nest and its present blocks in the order of the text, with an affine form for each
//! datum that was seen: the scalars as a block begins, the addresses of its accesses with a tube about each, and the
//! lower bound and the trip of an inner loop. The crate stands on `affine` (forms) and `nest_lang` (parts of loops).
//!
//! Its `specs/` speak of one plain table of the nest and its forms: which instances are predicted for a chunk, the padded
//! point, original order, what an instance reads and writes, and the checks of a launch. The layers above use `launch`,
//! which walks over the predicted instances in original order, `successor` (the next of them), `padded`, `expected`, and
//! the forms and tubes themselves. Nothing here runs a nest or sees a word of its memory.
#![tactic(auto)]

mod checks;
mod chunk;
mod held;
mod instance;
mod launching;
pub mod laws;
mod order;
mod padding;
mod prediction;
mod steps;
mod table;
mod touched;
mod walk;

pub use chunk::Chunk;
pub use held::{Held, HeldWhy, Launched};
pub use instance::Instance;
pub use launching::launch;
pub use order::successor;
pub use padding::padded;
pub use prediction::{Prediction, What, expected};
pub use table::{AccessForm, BlockForms, LoopForms, LoopKind};
pub use touched::{Touched, footprint};

#[cfg(test)]
mod tests;
