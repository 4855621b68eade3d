//! The memory and the first values of its words.

ghost use Rattle.std.specs.Prelude.{◌≡◌, ◌+◌, ◌*◌, ◌<◌, ◌≤◌, ◌^◌, ◌+ℤ◌, ◌*ℤ◌, pos, unsigned_abs, OnOk};
ghost use Rattle.nest_lang.specs.Values.{is_i64};
ghost use Rattle.nest_grammar.specs.Contents.{memory, item_keyword, value_begins, data_value, data_values, ramp_fits, item_of, items};
ghost use Rattle.nest_grammar.specs.declared.opening.ItemKeyword.TheVariants.{Data as DataWord, Ramp as RampWord};
ghost use Rattle.nest_grammar.specs.Sights.{skip};
ghost use Rattle.nest_grammar.specs.Readings.{signed_where};
ghost use Rattle.nest_grammar.specs.declared.fault.TextKind.TheVariants.{Range as RangeKind};
ghost use Rattle.nest_text.specs.Answers.{Gives};

use crate::limits::MOST_WORDS;
use crate::reader::{Reader, signed_value};
use crate::refusal::ReadRefusal;
use nest_grammar::{Item, ItemKeyword, TextKind};
use nest_lang::is_i64;
use nest_tokens::{Mark, Token};
use sqlite_items::Items;

/// The word that an item begins with.
#[tactic(auto, unfolding(nest_grammar::specs::Contents::item_keyword))]
fn item_keyword(token: Token) -> Option<ItemKeyword>
    ensures { result ≡ item_keyword token }
{
    match token {
        Token::Plain(Mark::Data) => Some(ItemKeyword::Data),
        Token::Plain(Mark::Ramp) => Some(ItemKeyword::Ramp),
        _ => None,
    }
}

/// Whether a value begins with this token.
fn value_begins(token: Token) -> bool
    ensures { result ≡ value_begins token }
{
    match token {
        Token::Number(_) => true,
        Token::Plain(Mark::Minus) => true,
        _ => false,
    }
}

/// The address so many strides behind a first one.
fn last_address(first: u64, stride: u64, steps: u64) -> u128
    requires sizes { (first < 2 ^ 63) × (stride < 2 ^ 63) × (steps < 2 ^ 63) }
    ensures { result ≡ first + stride * steps }
{
    u128::from(first) + u128::from(stride) * u128::from(steps)
}

/// What so many steps of a growth come to.
fn grown(growth: i64, steps: u64) -> i128
    requires { steps < 2 ^ 63 }
    ensures value { result ≡ growth *ℤ pos steps }
    ensures size { unsigned_abs result ≤ 2 ^ 126 }
{
    i128::from(growth) * i128::from(steps)
}

/// The value so many steps of a growth behind a first one.
fn last_value(start: i64, growth: i64, steps: u64) -> i128
    requires { steps < 2 ^ 63 }
    ensures { result ≡ start +ℤ growth *ℤ pos steps }
{
    i128::from(start) + grown(growth, steps)
}

/// Whether a ramp stays within so many words, and its values within i64.
fn ramp_fits(words: u64, first: u64, count: u64, stride: u64, start: i64, growth: i64) -> bool
    requires sizes { (first < 2 ^ 63) × (count < 2 ^ 63) × (stride < 2 ^ 63) }
    ensures { result ≡ ramp_fits words first count stride start growth }
{
    if count == 0 {
        return true;
    }
    let last = last_address(first, stride, count - 1);
    last < u128::from(words) && is_i64(last_value(start, growth, count - 1))
}

impl<'a> Reader<'a> {
    /// Reads `memory` and its number of words.
    #[tactic(auto, using(crate::proofs::ProductionLaws::numbers), unfolding(nest_grammar::specs::Contents::memory, nest_grammar::specs::Readings::obeys))]
    pub fn memory(&mut self) -> Result<usize, ReadRefusal>
        ensures { Gives result self.new (memory self.old) }
    {
        self.need(Mark::Memory)?;
        let words = self.number_here()?;
        self.pass(words <= MOST_WORDS, TextKind::Range)?;
        Ok(words as usize)
    }

    /// Reads a value for the word at an address.
    #[tactic(auto, unfolding(nest_grammar::specs::Contents::data_value, nest_grammar::specs::Readings::obeys, nest_grammar::specs::Readings::refused))]
    fn data_value(&mut self, words: usize, address: u64) -> Result<i64, ReadRefusal>
        ensures read { Gives result self.new (data_value words address self.old) }
        ensures within { OnOk result (address < words) }
    {
        if !value_begins(self.token()) {
            return Err(ReadRefusal::Text(self.unexpected()));
        }
        self.obey(address < words as u64, TextKind::Range)?;
        self.signed()
    }

    /// Reads values for the words from an address on.
    #[tactic(auto, using(crate::proofs::MarkedPartLaws::value_loop), unfolding(nest_grammar::specs::Contents::data_values))]
    fn data_values(&mut self, words: usize, first: u64) -> Result<Items<i64>, ReadRefusal>
        requires { first < 2 ^ 63 }
        ensures { Gives result self.new (data_values words first self.old) }
    {
        let mut values = Items::new(self.alloc);
        let value = self.data_value(words, first)?;
        values.push(value)?;
        'values: while self.token().is(Mark::Comma) {
            self.skip();
            let value = self.data_value(words, first + values.len() as u64)?;
            values.push(value)?;
        }
        Ok(values)
    }

    /// Reads what stands behind `data`.
    #[tactic(auto, unfolding(nest_grammar::specs::Contents::item_of))]
    fn data(&mut self, words: usize) -> Result<Item, ReadRefusal>
        ensures { Gives result self.new (item_of words DataWord self.old) }
    {
        let first = self.number()?;
        self.need(Mark::Colon)?;
        let values = self.data_values(words, first)?;
        Ok(Item::Data { first, values })
    }

    /// Goes past the growth of a ramp that stays within so many words, with its values within i64.
    #[tactic(auto, using(crate::proofs::ProductionLaws::growths))]
    fn growth(
        &mut self,
        words: u64,
        first: u64,
        count: u64,
        stride: u64,
        start: i64,
    ) -> Result<i64, ReadRefusal>
        requires sizes { (first < 2 ^ 63) × (count < 2 ^ 63) × (stride < 2 ^ 63) }
        ensures { Gives result self.new (signed_where (ramp_fits words first count stride start) RangeKind self.old) }
    {
        let negative = self.sign();
        let number = self.number_here()?;
        let growth = signed_value(negative, number);
        let fits = ramp_fits(words, first, count, stride, start, growth);
        self.pass(fits, TextKind::Range)?;
        Ok(growth)
    }

    /// Reads what stands behind `ramp`.
    #[tactic(auto, using(crate::proofs::ProductionLaws::ramps), unfolding(nest_grammar::specs::Contents::item_of))]
    fn ramp(&mut self, words: usize) -> Result<Item, ReadRefusal>
        ensures { Gives result self.new (item_of words RampWord self.old) }
    {
        let first = self.number()?;
        let count = self.number()?;
        let stride = self.number_here()?;
        self.pass(stride != 0, TextKind::Range)?;
        let start = self.signed()?;
        let growth = self.growth(words as u64, first, count, stride, start)?;
        Ok(Item::Ramp {
            first,
            count,
            stride,
            start,
            growth,
        })
    }

    /// Reads an item that begins with this word.
    fn item(&mut self, words: usize, word: ItemKeyword) -> Result<Item, ReadRefusal>
        ensures { Gives result self.new (item_of words word (skip self.old)) }
    {
        self.skip();
        match word {
            ItemKeyword::Data => self.data(words),
            ItemKeyword::Ramp => self.ramp(words),
        }
    }

    /// Reads the items of a memory of so many words.
    #[tactic(auto, using(crate::proofs::MarkedPartLaws::item_loop), unfolding(nest_grammar::specs::Contents::items))]
    pub fn items(&mut self, words: usize) -> Result<Items<Item>, ReadRefusal>
        ensures { Gives result self.new (items words self.old) }
    {
        let mut items = Items::new(self.alloc);
        'items: while let Some(word) = item_keyword(self.token()) {
            let item = self.item(words, word)?;
            items.push(item)?;
        }
        Ok(items)
    }
}
