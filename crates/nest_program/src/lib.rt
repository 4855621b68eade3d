//! The program, but for its process: what `main` does once it has its arguments.
//!
//! `run` makes a source of a reader and a sink of a writer, makes the crew, and runs the top call over them. Its contract
//! is that of `nest_top::nest_exit` from a crew to which nothing was handed, over every reader and writer of std; its type
//! says which crew that is. `crew_behind` alone makes it, for the program and for a program that shows its threads.
//! `exit_without_arguments` is the exit where there are no arguments to run on.
//!
//! It stands on `nest_top`, `crew` and `nest_io`. `nest_main` takes the arguments, calls `run` over the standard streams,
//! and ends with its exit.
#![tactic(auto)]

mod running;

pub use running::{Finished, crew_behind, exit_without_arguments, run};

#[cfg(test)]
mod tests;
