//! The arguments of the program: which lists of them are an invocation, and which one.
//!
//! `invocation_of` reads the arguments after the program's name. It has them parsed by the kit's `clap`, with
//! the one simple command that `specs/Syntax.antt` writes out, and judges what was found: the mode with the values
//! behind it, and the numbers of the four options in their ranges (`specs/Invocations.antt`). It stands on no
//! crate of this repository. The layer above takes the `Invocation`, or `usage_text` where the arguments are no
//! invocation.
#![tactic(auto)]

mod invocation;
pub mod laws;
mod number;
mod reading;
mod recipe;
mod syntax;

pub use invocation::{Invocation, Mode, Options};
pub use reading::{invocation_of, usage_text};
pub use recipe::{Recipe, Shape};

#[cfg(test)]
mod tests;
