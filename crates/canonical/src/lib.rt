//! The canonical text of a file, and its writer.
//!
//! What a file's canonical text is stands in `specs/`: it is a list of pieces (tokens, spaces, indents
//! and line ends), made from the file alone. An expression has only the parentheses that the grammar
//! needs. `write_nest` gives the bytes of these pieces, and says that they read as the same file. Each function here writes one part and says that
//! the page is then longer by exactly the text of that part.
//!
//! `laws` has what this is for: the canonical text of what a text reads as reads as the same file.
//!
//! The crate stands on `nest_grammar`, whose `File` it writes and whose laws its own cite, and on `nest_tokens` for how
//! tokens are spelled; the file that it writes is one that `nest_text` has read.
#![tactic(auto)]

mod contents;
mod expression;
mod group;
mod labels;
pub mod laws;
mod loops;
mod page;
mod script;
mod statement;

pub use contents::write_nest;
