//! A cursor in a text: it stands at a token, or at the end.

ghost use Rattle.std.specs.Prelude.{◌≡◌, ◌≤◌, length, drop};
ghost use Rattle.nest_tokens.specs.Ahead.{Ahead, here, stands, past, whole};
ghost use Rattle.nest_tokens.specs.Lexing.{FitsI64, tokens_from};

use crate::lexer::{gap_end, lex};
use crate::token::{Spot, Token};
use std::marker::Model;

/// What is still to be read of a text.
#[derive(Drop)]
pub struct Cursor<'a> {
    text: &'a [u8],
    at: usize,
    end: usize,
    token: Token,
}

impl<'a> Model for Cursor<'a> {
    ghost use Rattle.std.specs.Prelude.{length, drop};
    ghost use Rattle.nest_tokens.specs.Ahead.{Ahead};
    ghost use Rattle.nest_tokens.specs.Lexing.{tokens_from};
    ghost use Rattle.nest_tokens.specs.Placed.{Placed};

    ghost Value = { Ahead };

    ghost view = { λ c. record { left = tokens_from (length c.text.now) (drop c.at c.text.now); size = length c.text.now } };

    ghost invariant = { λ c. Placed c.text.now c.at c.end c.token };
}

impl<'a> Cursor<'a> {
    /// Stands at the first token from here on.
    #[tactic(auto, using(crate::proofs::PlaceLaws::places))]
    fn from(text: &'a [u8], from: usize) -> Cursor<'a>
        requires within { from ≤ length text.now }
        ensures { result ≡ record { left = tokens_from (length text.now) (drop from text.now); size = length text.now } }
    {
        let at = gap_end(text, from);
        let (token, len) = lex(&text[at..]);
        Cursor {
            text,
            at,
            end: at + len,
            token,
        }
    }

    /// Stands at the first token of a text.
    pub fn new(text: &'a [u8]) -> Cursor<'a>
        ensures { result ≡ whole text.now }
    {
        Cursor::from(text, 0)
    }

    /// The token here and the offset of its first byte; at the end that is the length of the text.
    #[tactic(auto, unfolding(crate::specs::Ahead::here), using(crate::proofs::PlaceLaws::places))]
    pub fn spot(&self) -> Spot
        ensures value { result ≡ here self.now }
        ensures fits { FitsI64 result.token }
    {
        Spot {
            at: self.at,
            token: self.token,
        }
    }

    /// The token here.
    pub fn token(&self) -> Token
        ensures value { result ≡ stands self.now }
        ensures fits { FitsI64 result }
    {
        self.spot().token
    }

    /// Goes past the token here; at the end it stays.
    #[tactic(auto, unfolding(crate::specs::Ahead::past), using(crate::proofs::PlaceLaws::places))]
    pub fn skip(&mut self)
        ensures { self.new ≡ past self.old }
    {
        if self.at < self.text.len() {
            let next = Cursor::from(self.text, self.end);
            *self = next;
        }
    }
}
