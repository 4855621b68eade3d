//! Footprints: the words that an instance reads, and those that it writes.

ghost use Rattle.std.specs.Prelude.{◌≡◌, ◌<◌, ◌≤◌, ◌↔◌, ◌^◌, ℕ, ℤ, pos, ◌≤ℤ◌, ◌<ℤ◌, true, false, length, Contains, OnOk, IfOk};
ghost use Rattle.std.specs.List.Sorted.{IsStrictlyIncreasing};
ghost use Rattle.affine.specs.Forms.{AllWithinSize};
ghost use Rattle.domain.specs.Footprints.{Expects, Writes, Reads, IsListOf, Gains, IsWordOf};

use crate::checks::{plus, value};
use crate::instance::Instance;
use crate::prediction::Prediction;
use crate::table::AccessForm;
use std::alloc::{AllocError, Global};

/// The addresses that an instance reads, and those that it writes: each list in order, each address once.
#[derive(Debug, Drop)]
pub struct Touched {
    pub reads: Vec<u64>,
    pub writes: Vec<u64>,
}

/// The address at which a list of words that begins at a number begins: the number, or the nearest of 0 to the number of
/// words.
fn bounded(number: i128, words: u64) -> u64
    ensures from { (address : ℕ) → address < words → (result ≤ address) ↔ (number ≤ℤ pos address) }
    ensures most { result ≤ words }
{
    if number < 0 {
        0
    } else if number > i128::from(words) {
        words
    } else {
        number as u64
    }
}

/// Puts the addresses from one to another behind a list.
fn push_range(list: &mut Vec<u64>, from: u64, to: u64) -> Result<(), AllocError>
    ensures { OnOk result (Gains (λ address. (from ≤ address) × (address < to)) list.old.items list.new.items) }
{
    for address in from..to {
        list.push(address)?;
    }
    Ok(())
}

/// The addresses of a list in order, each once.
fn in_order(mut list: Vec<u64>) -> Vec<u64>
    ensures rising { IsStrictlyIncreasing result.items }
    ensures has { (address : ℕ) → Contains result.items address ↔ Contains list.items address }
{
    list.sort_unstable();
    list.dedup();
    list
}

impl<const D: usize> AccessForm<D> {
    /// Puts the words that are expected of the access behind a list.
    fn list(&self, at: &[i64; D], words: u64, list: &mut Vec<u64>) -> Result<(), AllocError>
        requires few { D < 7 }
        requires near { AllWithinSize (2 ^ 33) at.now }
        ensures { OnOk result (Gains (λ address. Expects self.now at.now (pos address) × (address < words)) list.old.items list.new.items) }
    {
        let Some(form) = &self.line else {
            return Ok(());
        };
        let line = value(form, at);
        let first = bounded(plus(line, self.low), words);
        let end = bounded(plus(line, self.high) + 1, words);
        push_range(list, first, end)
    }
}

impl Touched {
    /// Puts the words that are expected of an access behind the reads or the writes.
    fn gain<const D: usize>(
        &mut self,
        access: &AccessForm<D>,
        at: &[i64; D],
        words: u64,
    ) -> Result<(), AllocError>
        requires few { D < 7 }
        requires near { AllWithinSize (2 ^ 33) at.now }
        ensures reads { OnOk result (Gains (IsWordOf access.now at.now words false) self.old.reads.items self.new.reads.items) }
        ensures writes { OnOk result (Gains (IsWordOf access.now at.now words true) self.old.writes.items self.new.writes.items) }
    {
        if access.stores {
            access.list(at, words, &mut self.writes)
        } else {
            access.list(at, words, &mut self.reads)
        }
    }
}

/// The footprint of an instance of a present block, over a memory of so many words: every address in the expected
/// intervals of its loads that is a word, and every address in those of its stores, each of which is a word, as in a
/// launched chunk. An access without a form has none. The counters are at most 2^33 in size, and D is at most 6.
pub fn footprint<const D: usize>(
    alloc: Global,
    pred: &Prediction<D>,
    inst: &Instance<D>,
    words: u64,
) -> Result<Touched, AllocError>
    requires few { D < 7 }
    requires block { inst.now.block < length pred.now.blocks }
    requires near { AllWithinSize (2 ^ 33) inst.now.at }
    requires words { (address : ℤ) → Writes pred.now inst.now address → (pos 0 ≤ℤ address) × (address <ℤ pos words) }
    ensures reads { IfOk result (λ touched. IsListOf (Reads pred.now (pos words) inst.now) touched.reads.items) }
    ensures writes { IfOk result (λ touched. IsListOf (Writes pred.now inst.now) touched.writes.items) }
{
    let mut touched = Touched {
        reads: Vec::new(alloc),
        writes: Vec::new(alloc),
    };
    for access in &pred.block(inst.block).accesses {
        touched.gain(access, &inst.at, words)?;
    }
    Ok(Touched {
        reads: in_order(touched.reads),
        writes: in_order(touched.writes),
    })
}
