//! Addresses at equal distances.

ghost use Rattle.std.specs.Prelude.{◌≡◌, ◌<◌, ◌≤◌, ◌^◌, ◌∷◌, ◌≤ℤ◌, ◌<ℤ◌, pos, [], OnOk, IfSome, IsNone, unsigned_abs};
ghost use Rattle.affine.specs.Forms.{AllWithinSize, value_at};
ghost use Rattle.domain.specs.Footprints.{Gains};
ghost use Rattle.tiles.specs.Strips.{AreSmall, IsNear, IsSmallRun, IsStored, IsWordOf, address_at, form_strip, run_strip, strip_of};

use crate::stripe::Stripe;
use crate::sums::{minus, plus, stepped};
use affine::Form;
use skeletons::Run;
use std::alloc::AllocError;

/// The addresses `first + step * k` for each k below `count`. They need not be words.
#[derive(Clone, Copy, Debug)]
pub struct Strip {
    pub first: i128,
    pub step: i128,
    pub count: u64,
}

/// The value of a form at small counters, which is far from the ends of an i128.
fn value<const D: usize>(form: &Form<D>, at: &[i64; D]) -> i128
    requires few { D < 7 }
    requires near { AllWithinSize (2 ^ 33) at.now }
    ensures value { result ≡ value_at form.now at.now }
    ensures small { unsigned_abs result < 2 ^ 77 }
{
    let _constant = form.cst;
    form.at(at)
}

/// The word of an address; None exactly where it is none of so many.
fn word(address: i128, words: u64) -> Option<u64>
    ensures some { IfSome result (λ word. (pos word ≡ address) × (word < words)) }
    ensures none { IsNone result → pos 0 ≤ℤ address → address <ℤ pos words → ⊥ }
{
    if 0 <= address && address < i128::from(words) {
        Some(address as u64)
    } else {
        None
    }
}

/// Puts an address behind a list, where it is one of so many words.
fn push_word(address: i128, words: u64, list: &mut Vec<u64>) -> Result<(), AllocError>
    ensures { OnOk result (Gains (λ word. (pos word ≡ address) × (word < words)) list.old.items list.new.items) }
{
    match word(address, words) {
        Some(word) => {
            list.push(word)?;
            Ok(())
        }
        None => Ok(()),
    }
}

impl Strip {
    /// The addresses about a line at so many counters from some on, at an offset of at most 64 in size. D is at most 6.
    fn about<const D: usize>(
        form: &Form<D>,
        at: &[i64; D],
        step: &[i64; D],
        count: u64,
        offset: i64,
    ) -> Strip
        requires few { D < 7 }
        requires small { AreSmall at.now step.now count }
        requires near { unsigned_abs offset ≤ 64 }
        ensures is { result ≡ form_strip form.now at.now step.now count offset }
        ensures near { IsNear result }
        ensures step { unsigned_abs result.step < 2 ^ 63 }
    {
        let first = plus(value(form, at), offset);
        let step = minus(value(form, step), form.cst);
        Strip { first, step, count }
    }

    /// The addresses of a run about a line, at an offset of at most 64 in size. D is at most 6.
    pub fn of_run<const D: usize>(run: &Run<D>, form: &Form<D>, offset: i64) -> Strip
        requires few { D < 7 }
        requires small { IsSmallRun run.now }
        requires near { unsigned_abs offset ≤ 64 }
        ensures is { result ≡ run_strip run.now form.now offset }
        ensures near { IsNear result }
        ensures step { unsigned_abs result.step < 2 ^ 63 }
    {
        let first = run.first;
        let step = run.step;
        Strip::about(form, &first.at, &step, run.count, offset)
    }

    /// The address of that number.
    fn address(&self, place: u64) -> i128
        requires near { IsNear self.now }
        requires inside { place < self.now.count }
        ensures { result ≡ address_at self.now place }
    {
        stepped(self.first, self.step, place)
    }

    /// Puts those of the addresses that are words, of so many, behind a list.
    pub fn push_words(&self, words: u64, list: &mut Vec<u64>) -> Result<(), AllocError>
        requires near { IsNear self.now }
        ensures { OnOk result (Gains (IsWordOf words (self.now ∷ [])) list.old.items list.new.items) }
    {
        for place in 0..self.count {
            push_word(self.address(place), words, list)?;
        }
        Ok(())
    }

    /// The stripe with these addresses.
    pub fn stripe(&self) -> Stripe
        requires step { unsigned_abs self.now.step < 2 ^ 63 }
        requires stored { IsStored self.now }
        ensures { strip_of result ≡ self.now }
    {
        Stripe {
            first: self.first as u64,
            step: self.step as i64,
            count: self.count,
        }
    }
}
