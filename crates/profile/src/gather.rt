//! The samples of a datum, gathered from what a sampler kept.

ghost use Rattle.std.specs.Prelude.{◌≡◌, ◌<◌, ◌≤◌, ◌^◌, ◌+◌, ℕ, pos, [], ◌∷◌, length, take, unsigned_abs, IfOk, OnOk, ◌++◌, slice_index_or};
ghost use Rattle.std.specs.Option.{option_to_list};
ghost use Rattle.nest_lang.specs.Blocks.{same_block as same_block_of};
ghost use Rattle.block_exec.specs.Watches.{observed};
ghost use Rattle.profile.specs.Logs.{told_value, told, told_by, counters_after};
ghost use Rattle.profile.specs.Gathered.{padded, same_seen, given_by, samples_of, trip_of as trip_of_lem};

use crate::log::{Item, Shown};
use line_fit::Sample;
use nest_lang::{BlockRef, Seen};
use std::alloc::{AllocError, Global};

/// The samples of a datum among the observations that items tell, in order.
#[tactic(auto, using(crate::proofs::GatherLaws::gathering))]
pub fn gather<const D: usize>(
    alloc: Global,
    items: &[Item],
    block: BlockRef,
    what: Seen,
) -> Result<Vec<Sample<D>>, AllocError>
    requires { D < 7 }
    ensures { IfOk result (λ found. found.items ≡ samples_of D block what (told [] items.now)) }
{
    let mut counters = Vec::new(alloc);
    let mut found = Vec::new(alloc);
    for item in items {
        read(&mut counters, &mut found, *item, block, what)?;
    }
    Ok(found)
}

/// Reads one item: the counters change, or an observation may give a sample.
fn read<const D: usize>(
    counters: &mut Vec<i64>,
    found: &mut Vec<Sample<D>>,
    item: Item,
    block: BlockRef,
    what: Seen,
) -> Result<(), AllocError>
    requires { D < 7 }
    ensures counters { OnOk result (counters.new.items ≡ counters_after counters.old.items item.shown item.level item.value) }
    ensures found { OnOk result (found.new.items ≡ found.old.items ++ samples_of D block what (told_by counters.old.items item.shown item.level item.value)) }
{
    let level = item.level as usize;
    match item.shown {
        None => {
            counters.truncate(level);
            counters.push(item.value)?;
        }
        Some(shown) => {
            let at = front(counters, level);
            if let Some(sample) = given_by(block, what, shown, at, item.value) {
                found.push(sample)?;
            }
        }
    }
    Ok(())
}

/// The first counters, as many as a level has.
fn front(counters: &[i64], level: usize) -> &[i64]
    ensures { result.now ≡ take level counters.now }
{
    if level < counters.len() {
        &counters[..level]
    } else {
        counters
    }
}

/// The sample of a datum that an observation gives.
fn given_by<const D: usize>(
    block: BlockRef,
    what: Seen,
    shown: Shown,
    counters: &[i64],
    value: i64,
) -> Option<Sample<D>>
    requires { D < 7 }
    ensures { option_to_list result ≡ given_by D block what (observed shown.block counters.now shown.what (told_value shown.what value)) }
{
    if !same_block(shown.block, block) {
        return None;
    }
    if same_seen(shown.what, what) {
        return Some(Sample {
            at: padded(counters),
            value: told_value(shown.what, value),
        });
    }
    if what == Seen::Trip && shown.what == Seen::Condition && value == 0 {
        return Some(trip_of(counters));
    }
    None
}

/// The trip of an inner `while` that ended, at its first head.
fn trip_of<const D: usize>(counters: &[i64]) -> Sample<D>
    requires { D < 7 }
    ensures { result ≡ trip_of_lem D counters.now }
{
    let around = counters.len().saturating_sub(1);
    let trip = match counters.get(around) {
        Some(last) => i128::from(*last),
        None => 0,
    };
    Sample {
        at: padded(&counters[..around]),
        value: trip,
    }
}

/// The counters, and zeros after them.
fn padded<const D: usize>(counters: &[i64]) -> [i64; D]
    requires { D < 7 }
    ensures { result ≡ padded D counters.now }
{
    let mut at = [0; D];
    for place in 0..D {
        at[place] = counter_at(counters, place);
    }
    at
}

/// The counter at a place, or 0 past the last.
fn counter_at(counters: &[i64], place: usize) -> i64
    ensures { result ≡ slice_index_or counters.now place (pos 0) }
{
    match counters.get(place) {
        Some(counter) => *counter,
        None => 0,
    }
}

/// The value of a kept number.
fn told_value(what: Seen, value: i64) -> i128
    ensures value { result ≡ told_value what value }
    ensures size { unsigned_abs result ≤ 2 ^ 64 }
{
    match what {
        Seen::Trip => i128::from(value) + (1 << 63),
        _ => i128::from(value),
    }
}

/// Whether two kinds of observation are the same.
fn same_seen(a: Seen, b: Seen) -> bool
    ensures { result ≡ same_seen a b }
{
    match (a, b) {
        (Seen::Scalar(m), Seen::Scalar(n)) => m == n,
        (Seen::Address(m), Seen::Address(n)) => m == n,
        (Seen::Start, Seen::Start) => true,
        (Seen::Lower, Seen::Lower) => true,
        (Seen::Trip, Seen::Trip) => true,
        (Seen::Condition, Seen::Condition) => true,
        _ => false,
    }
}

/// Whether two blocks are the same.
fn same_block(a: BlockRef, b: BlockRef) -> bool
    ensures { result ≡ same_block_of a b }
{
    a.part == b.part && a.level == b.level
}
