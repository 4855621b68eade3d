//! The tokens of a text.
//!
//! A text is a list of bytes. `Token` says what can stand in it, for the whole language: a name, a
//! number, a sign or a keyword, something that is refused wherever it stands, or the end. `Cursor`
//! goes through a text token by token; what it means is the tokens that are left, each with the offset of
//! its first byte, so that no clause above speaks of bytes.
//!
//! The crate stands on none of ours. The grammar above speaks of its tokens, and the reader above has a
//! `Cursor` and uses its calls `new`, `spot`, `token` and `skip`, and `Token::is`.
#![tactic(auto)]

mod cursor;
pub mod laws;
mod lexer;
#[cfg(test)]
mod tests;
mod token;

pub use cursor::Cursor;
pub use token::{BadToken, LONGEST_NAME, Mark, Name, Spot, Token};
