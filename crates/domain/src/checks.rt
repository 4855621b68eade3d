//! The checks of one predicted instance.

ghost use Rattle.std.specs.Prelude.{◌≡◌, ◌<◌, ◌≤◌, ◌-◌, ◌^◌, ℕ, ℤ, pos, ◌+ℤ◌, ◌-ℤ◌, ◌*ℤ◌, ◌≤ℤ◌, unsigned_abs, length, sum_by, option_map};
ghost use Rattle.affine.specs.Forms.{AllWithinSize, value_at};
ghost use Rattle.nest_lang.specs.Values.{is_i64};
ghost use Rattle.domain.specs.Launches.{outside, scalar_failure, scalars_failure, line_failure, store_failure, stores_failure, trip_failure, loop_failure, access_width, block_width};

use crate::held::HeldWhy;
use crate::table::{AccessForm, BlockForms, LoopKind};
use affine::Form;
use nest_lang::is_i64;

/// The value of a form, which is far from the ends of an i128.
pub fn value<const D: usize>(form: &Form<D>, at: &[i64; D]) -> i128
    requires few { D < 7 }
    requires near { AllWithinSize (2 ^ 33) at.now }
    ensures value { result ≡ value_at form.now at.now }
    ensures small { unsigned_abs result < 2 ^ 77 }
{
    let _constant = form.cst;
    form.at(at)
}

/// The first address of an interval that is no word.
fn outside(words: u64, first: i128, last: i128) -> Option<i128>
    ensures { result ≡ outside (pos words) first last }
{
    let words = i128::from(words);
    if first < 0 {
        Some(first)
    } else if last < words {
        None
    } else if first < words {
        Some(words)
    } else {
        Some(first)
    }
}

/// The check of a scalar.
fn scalar_failure<const D: usize>(
    number: u8,
    form: &Option<Form<D>>,
    at: &[i64; D],
) -> Option<HeldWhy>
    requires few { D < 7 }
    requires near { AllWithinSize (2 ^ 33) at.now }
    ensures { result ≡ scalar_failure number form.now at.now }
{
    match form {
        Some(form) => {
            let value = value(form, at);
            if is_i64(value) {
                None
            } else {
                Some(HeldWhy::Scalar(number, value))
            }
        }
        None => None,
    }
}

/// The check of an access.
fn store_failure<const D: usize>(
    words: u64,
    number: u8,
    access: &AccessForm<D>,
    at: &[i64; D],
) -> Option<HeldWhy>
    requires few { D < 7 }
    requires near { AllWithinSize (2 ^ 33) at.now }
    ensures { result ≡ store_failure (pos words) number access.now at.now }
{
    if !access.stores {
        return None;
    }
    match &access.line {
        Some(form) => line_failure(words, number, form, access.low, access.high, at),
        None => None,
    }
}

/// The check of a store that has a form.
fn line_failure<const D: usize>(
    words: u64,
    number: u8,
    form: &Form<D>,
    low: i64,
    high: i64,
    at: &[i64; D],
) -> Option<HeldWhy>
    requires few { D < 7 }
    requires near { AllWithinSize (2 ^ 33) at.now }
    ensures { result ≡ line_failure (pos words) number (Some form.now) low high at.now }
{
    let line = value(form, at);
    match outside(words, plus(line, low), plus(line, high)) {
        Some(address) => Some(HeldWhy::Outside(number, address)),
        None => None,
    }
}

/// A sum.
pub fn plus(number: i128, more: i64) -> i128
    requires { unsigned_abs number < 2 ^ 77 }
    ensures { result ≡ number +ℤ more }
{
    number + i128::from(more)
}

/// The check of a trip.
fn trip_failure(trip: i128) -> Option<HeldWhy>
    ensures { result ≡ trip_failure trip }
{
    if trip < 0 {
        Some(HeldWhy::Negative(trip))
    } else {
        None
    }
}

/// The value of a loop's name in its last turn.
fn last_value(lower: i128, stride: i64, trip: i128) -> i128
    requires lower { unsigned_abs lower ≤ 2 ^ 63 }
    requires last { unsigned_abs (stride *ℤ (trip -ℤ pos 1)) ≤ 2 ^ 120 }
    requires trip { unsigned_abs trip ≤ 2 ^ 120 }
    ensures { result ≡ lower +ℤ stride *ℤ (trip -ℤ pos 1) }
{
    lower + i128::from(stride) * (trip - 1)
}

/// The checks of the head of a loop.
pub fn loop_failure<const D: usize>(
    kind: LoopKind,
    lower: &Option<Form<D>>,
    trip: i128,
    turn: i64,
    at: &[i64; D],
) -> Option<HeldWhy>
    requires few { D < 7 }
    requires near { AllWithinSize (2 ^ 33) at.now }
    requires trip { unsigned_abs trip ≤ 2 ^ 120 }
    requires last { (stride : ℤ) → kind ≡ LoopKind.For stride → unsigned_abs (stride *ℤ (trip -ℤ pos 1)) ≤ 2 ^ 120 }
    ensures { result ≡ loop_failure kind lower.now trip turn at.now }
{
    match kind {
        LoopKind::For(stride) => for_failure(stride, lower, trip, at),
        LoopKind::While => { if turn == 0 { trip_failure(trip) } else { None } }
    }
}

/// The checks of the head of a `for`.
fn for_failure<const D: usize>(
    stride: i64,
    lower: &Option<Form<D>>,
    trip: i128,
    at: &[i64; D],
) -> Option<HeldWhy>
    requires few { D < 7 }
    requires near { AllWithinSize (2 ^ 33) at.now }
    requires trip { unsigned_abs trip ≤ 2 ^ 120 }
    requires last { unsigned_abs (stride *ℤ (trip -ℤ pos 1)) ≤ 2 ^ 120 }
    ensures { (turn : ℤ) → result ≡ loop_failure (LoopKind.For stride) lower.now trip turn at.now }
{
    match lower {
        Some(form) => {
            let from = value(form, at);
            if !is_i64(from) {
                return Some(HeldWhy::Lower(from));
            }
            if trip < 0 {
                return Some(HeldWhy::Negative(trip));
            }
            if trip == 0 {
                return None;
            }
            let last = last_value(from, stride, trip);
            if is_i64(last) {
                None
            } else {
                Some(HeldWhy::Last(last))
            }
        }
        None => trip_failure(trip),
    }
}

impl<const D: usize> AccessForm<D> {
    /// How many addresses are expected of the access.
    fn width(&self) -> u64
        requires { D < 7 }
        ensures value { result ≡ access_width self.now }
        ensures small { result ≤ 65 }
    {
        match &self.line {
            Some(_) => self.high.abs_diff(self.low) + 1,
            None => 0,
        }
    }
}

impl<const D: usize> BlockForms<D> {
    /// How many addresses are expected of the accesses, together.
    pub fn width(&self) -> u64
        requires few { D < 7 }
        requires short { length self.now.accesses ≤ 64 }
        ensures value { result ≡ block_width self.now }
        ensures small { result ≤ 4160 }
    {
        let mut width = 0;
        for access in &self.accesses {
            width += access.width();
        }
        width
    }

    /// The checks of the scalars.
    pub fn scalars_failure(&self, at: &[i64; D]) -> Option<HeldWhy>
        requires few { D < 7 }
        requires near { AllWithinSize (2 ^ 33) at.now }
        requires short { length self.now.scalars ≤ 16 }
        ensures { result ≡ scalars_failure 0 self.now.scalars at.now }
    {
        for (number, form) in self.scalars.iter().enumerate() {
            let found = scalar_failure(number as u8, form, at);
            if found.is_some() {
                return found;
            }
        }
        None
    }

    /// The checks of the stores.
    pub fn stores_failure(&self, words: u64, at: &[i64; D]) -> Option<HeldWhy>
        requires few { D < 7 }
        requires near { AllWithinSize (2 ^ 33) at.now }
        requires short { length self.now.accesses ≤ 64 }
        ensures { result ≡ stores_failure (pos words) 1 self.now.accesses at.now }
    {
        for (place, access) in self.accesses.iter().enumerate() {
            let found = store_failure(words, place as u8 + 1, access, at);
            if found.is_some() {
                return found;
            }
        }
        None
    }
}
