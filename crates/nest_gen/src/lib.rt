//! Files that are generated: a copy loop, a linked list with shortcuts, and a sweep over a grid.
//!
//! A file is made as a text, from a seed, a shape and a size, and then read. The numbers in the text that are drawn
//! come from one sequence of 64-bit numbers that begins at the seed.
//!
//! It stands on `nest_text` for the reader. The layer above runs the file as it runs one that was handed in.
#![tactic(auto)]

mod draws;
pub mod laws;
mod shapes;
mod texts;

pub use shapes::{Shape, generate};
