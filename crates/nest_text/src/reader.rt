//! What is still to be read of a text, and the steps that every production takes.

ghost use Rattle.std.specs.Prelude.{◌≡◌, ◌<◌, ◌^◌, pos, length, IfOk, OnOk, IfSome, Ok, true};
ghost use Rattle.nest_tokens.specs.Lexing.{FitsI64};
ghost use Rattle.nest_grammar.specs.Sights.{Sight, here, stands, skip, start, in_block, of_version};
ghost use Rattle.nest_grammar.specs.Readings.{unexpected, need, obeys, number, minus, with_sign, signed, end};
ghost use Rattle.nest_text.specs.Answers.{Gives, passed, number_of, NumberHere};

use crate::refusal::ReadRefusal;
use nest_grammar::{TextFault, TextKind, Version};
use nest_tokens::{BadToken, Cursor, Mark, Name, Token};
use sqlite_items::Items;
use std::alloc::Global;
use std::marker::Model;

/// What is still to be read of a text, with what was counted on the way: the version, how many tokens of
/// the expression were taken, how many accesses of the block were begun and numbered, and the names of
/// the block's locals.
#[derive(Drop)]
pub struct Reader<'a> {
    pub(crate) alloc: Global,
    cursor: Cursor<'a>,
    pub(crate) version: Version,
    pub(crate) spent: usize,
    pub(crate) opened: u8,
    pub(crate) accesses: u8,
    pub(crate) lets: Items<Name>,
}

impl<'a> Model for Reader<'a> {
    ghost use Rattle.std.specs.Prelude.{◌≤◌};
    ghost use Rattle.nest_grammar.specs.Sights.{Sight};

    ghost Value = { Sight };

    ghost invariant = { λ r. (r.accesses ≤ r.opened) × (r.opened ≤ 64) };

    ghost view = { λ r. record { left = r.cursor.left; size = r.cursor.size; version = r.version; spent = r.spent; opened = r.opened; accesses = r.accesses; lets = r.lets } };
}

/// What is wrong with a token that is not allowed.
fn unexpected_token(token: Token) -> TextKind
    ensures { result ≡ unexpected token }
{
    match token {
        Token::Bad(BadToken::Byte) => TextKind::Byte,
        Token::Bad(BadToken::Number) => TextKind::Number,
        Token::Bad(BadToken::Name) => TextKind::Name,
        _ => TextKind::Expected,
    }
}

/// The number that this token is.
#[tactic(auto, unfolding(crate::specs::Answers::number_of))]
fn number_of(token: Token) -> Option<u64>
    requires { FitsI64 token }
    ensures value { result ≡ number_of token }
    ensures fits { IfSome result (λ n. n < 2 ^ 63) }
{
    match token {
        Token::Number(number) => Some(number),
        _ => None,
    }
}

/// The value of a number.
pub fn value_of(number: u64) -> i64
    requires { number < 2 ^ 63 }
    ensures { result ≡ pos number }
{
    number as i64
}

/// The value of a number with or without a `-` before it.
pub fn signed_value(negative: bool, number: u64) -> i64
    requires { number < 2 ^ 63 }
    ensures { result ≡ with_sign negative number }
{
    if negative {
        -value_of(number)
    } else {
        value_of(number)
    }
}

impl<'a> Reader<'a> {
    /// Stands at the first token of a text.
    pub fn new(alloc: Global, text: &'a [u8]) -> Reader<'a>
        ensures { result ≡ start text.now }
    {
        Reader {
            alloc,
            cursor: Cursor::new(text),
            version: Version::One,
            spent: 0,
            opened: 0,
            accesses: 0,
            lets: Items::new(alloc),
        }
    }

    /// The token here.
    #[tactic(auto, unfolding(nest_tokens::specs::Ahead::here, nest_grammar::specs::Sights::here))]
    pub fn token(&self) -> Token
        ensures value { result ≡ stands self.now }
        ensures fits { FitsI64 result }
    {
        self.cursor.token()
    }

    /// Goes past the token here; at the end it stays.
    #[tactic(auto, unfolding(nest_tokens::specs::Ahead::past, nest_grammar::specs::Sights::skip))]
    pub fn skip(&mut self)
        ensures { self.new ≡ skip self.old }
    {
        self.cursor.skip();
    }

    /// A block begins.
    pub fn begin_block(&mut self)
        ensures { self.new ≡ in_block self.old }
    {
        self.opened = 0;
        self.accesses = 0;
        self.lets = Items::new(self.alloc);
    }

    /// The token here is at fault.
    #[tactic(auto, unfolding(nest_tokens::specs::Ahead::here, nest_grammar::specs::Sights::here))]
    pub fn fault(&self, what: TextKind) -> TextFault
        ensures { result ≡ record { at = (here self.now).at; what = what } }
    {
        TextFault {
            at: self.cursor.spot().at as u64,
            what,
        }
    }

    /// The grammar does not allow the token here.
    pub fn unexpected(&self) -> TextFault
        ensures { result ≡ record { at = (here self.now).at; what = unexpected (stands self.now) } }
    {
        self.fault(unexpected_token(self.token()))
    }

    /// Goes past this sign or word.
    #[tactic(auto, unfolding(nest_grammar::specs::Readings::need, nest_grammar::specs::Readings::refused))]
    pub fn need(&mut self, mark: Mark) -> Result<(), ReadRefusal>
        ensures { Gives result self.new (need mark self.old) }
    {
        if self.token().is(mark) {
            self.skip();
            Ok(())
        } else {
            Err(ReadRefusal::Text(self.unexpected()))
        }
    }

    /// Sees that a rule of the token here is kept.
    #[tactic(auto, unfolding(nest_grammar::specs::Readings::obeys, nest_grammar::specs::Readings::refused))]
    pub fn obey(&self, rule: bool, what: TextKind) -> Result<(), ReadRefusal>
        ensures read { Gives result self.now (obeys rule what self.now) }
        ensures kept { OnOk result (rule ≡ true) }
    {
        if rule {
            Ok(())
        } else {
            Err(ReadRefusal::Text(self.fault(what)))
        }
    }

    /// Goes past the token here, where a rule of it is kept.
    pub fn pass(&mut self, rule: bool, what: TextKind) -> Result<(), ReadRefusal>
        ensures read { Gives result self.new (passed rule what self.old) }
        ensures kept { OnOk result (rule ≡ true) }
    {
        self.obey(rule, what)?;
        self.skip();
        Ok(())
    }

    /// The number here; it is not taken yet.
    #[tactic(auto, unfolding(nest_grammar::specs::Readings::refused))]
    pub fn number_here(&self) -> Result<u64, ReadRefusal>
        ensures here { NumberHere result self.now }
        ensures fits { IfOk result (λ n. n < 2 ^ 63) }
    {
        match number_of(self.token()) {
            Some(number) => Ok(number),
            None => Err(ReadRefusal::Text(self.unexpected())),
        }
    }

    /// Goes past a number.
    #[tactic(auto, using(crate::proofs::ProductionLaws::any_number))]
    pub fn number(&mut self) -> Result<u64, ReadRefusal>
        ensures read { Gives result self.new (number self.old) }
        ensures fits { IfOk result (λ n. n < 2 ^ 63) }
    {
        let number = self.number_here()?;
        self.skip();
        Ok(number)
    }

    /// Goes past a `-`, where one stands here, and says whether.
    #[tactic(auto, unfolding(nest_grammar::specs::Readings::minus))]
    pub fn sign(&mut self) -> bool
        ensures { minus self.old ≡ Ok (result, self.new) }
    {
        let negative = self.token().is(Mark::Minus);
        if negative {
            self.skip();
        }
        negative
    }

    /// Goes past a number with or without a `-` before it.
    #[tactic(auto, unfolding(nest_grammar::specs::Readings::signed_where))]
    pub fn signed(&mut self) -> Result<i64, ReadRefusal>
        ensures { Gives result self.new (signed self.old) }
    {
        let negative = self.sign();
        let number = self.number()?;
        Ok(signed_value(negative, number))
    }

    /// Sees that the text ends here.
    #[tactic(auto, unfolding(nest_grammar::specs::Readings::end, nest_grammar::specs::Readings::refused))]
    pub fn end(&self) -> Result<(), ReadRefusal>
        ensures { Gives result self.now (end self.now) }
    {
        match self.token() {
            Token::End => Ok(()),
            _ => Err(ReadRefusal::Text(self.unexpected())),
        }
    }
}
