//! The text of a file: its reader, and what a file that was read gives.
//!
//! `Reader` goes through a text token by token and has one function for each production of the grammar.
//! Each answers what the definition of the same name in `nest_grammar` gives: the thing read, or the first
//! token that is wrong and its kind. `read_nest` gives the file that a text is, exactly where the text has
//! a reading, and else its first fault. A `NestFile` is made by it alone, so that some text reads as it; what
//! holds of every file that was read is then known of it, and no caller proves it again.
//!
//! The crate stands on `nest_tokens` (the tokens of a text), on `nest_grammar` (what a text reads as, and what holds of
//! it) and on `nest_lang` (the trees and states). The layers above use `read_nest` and the parts of a `NestFile`;
//! `canonical` writes one.
#![tactic(auto)]

mod contents;
mod expression;
mod file;
mod limits;
mod memory;
mod nesting;
mod reader;
mod refusal;
mod script;
mod statement;
mod visible;
mod whole;

pub use file::{NestFile, read_nest};
pub use limits::MOST_BYTES;
pub use nest_grammar::{TextFault, TextKind};
pub use refusal::ReadRefusal;
