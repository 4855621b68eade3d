//! What the text of a nest means: its grammar, its reading and its first fault.
//!
//! The layer has the definitions, the laws on them, and no reader: its one function with a body says how a command's
//! word is spelled. A `File` is what a text gives, as plain data. The reading of a text is a function from what is left
//! to be read to the thing read or the first fault, with one line for each production; each rule that a text may break
//! stands at the token that it judges. Beside it stands the grammar as a relation, one constructor for each production.
//! That both say the same, so that a text is at most one file and has a fault exactly where it is none, is the law of
//! `equal`, which also has that every file keeps the rules that its runs rest on, and examples, computed by hand.
//! `faults` has that a fault doesn't stand too early, nor, by the productions without the rules on names, numbers and
//! limits, too late, and that each kind of fault stands only at the tokens at which it may come.
//!
//! The crate stands on `nest_tokens`, whose tokens it reads, and on `nest_lang`, whose trees a file
//! holds. The reader of `nest_text` and the writer of `canonical` are held against these definitions, and cite these laws.
#![tactic(auto)]

pub mod equal;
mod fault;
pub mod faults;
mod file;
mod opening;
mod script;
mod version;

pub use fault::{TextFault, TextKind};
pub use file::{Declared, File, Item, LoopNames, NestUnit, Scalar};
pub use opening::{ItemKeyword, LoopKeyword, Opening, Start};
pub use script::CommandWord;
pub use version::Version;
