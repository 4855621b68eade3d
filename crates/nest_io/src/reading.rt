//! A source is read to its end or to a limit.
ghost use Rattle.std.specs.Prelude.{◌≡◌, ◌+◌, ◌<◌, ◌≤◌, ◌↔◌, ℕ, List, [], Some, false, if◌then◌else◌, length, take, drop, IsTrue, IfOk, IfSome, OnOk, OnErr, IsErrOf};
ghost use Rattle.nest_io.specs.Faults.{Rose};
ghost use Rattle.nest_io.specs.Bytes.{Takes, TakesUpTo};

use crate::{Failed, ReadEnd, Source, Steps};
use std::alloc::Global;
use std::marker::Brand;
use std::sync::ledger::{Blank, Ledger};

/// The most bytes that one read asks for.
const PIECE: usize = 4096;

/// What was read of a source.
#[derive(Debug, Drop)]
pub struct Taken {
    /// The bytes, at most one more than was asked for.
    pub bytes: Vec<u8>,
    /// The source was read to its end.
    pub whole: bool,
}

// One read is one step.
fn read_piece<S: Source, L: Ledger>(
    source: &mut S,
    into: &mut [u8],
    steps: &mut Steps<L>,
) -> Result<usize, Failed>
    ensures room { IfOk result (λ count. count ≤ length into.new) }
    ensures taken { IfOk result (λ count.
        Takes (S.left source.old) (S.left source.new) (take count into.new)) }
    ensures end { IfOk result (λ count. 0 < length into.new → IfSome (S.left source.old) (λ bytes.
        (count ≡ 0) ↔ (bytes ≡ []))) }
    ensures nothing { OnErr result (Takes (S.left source.old) (S.left source.new) []) }
    ensures cause { OnErr result (Rose (S.faults source.old) (S.faults source.new)) }
    ensures never_falls { S.faults source.old ≤ S.faults source.new }
    ensures step { steps.new ≡ steps.old + 1 }
{
    steps.tick();
    source.read(into)
}

/// `read_all`, where each read of the source is one step. A read takes at least one byte, or it is the
/// last one and meets the end or fails.
pub fn read_all_counted<S: Source, L: Ledger>(
    alloc: Global,
    source: &mut S,
    most: usize,
    steps: &mut Steps<L>,
) -> Result<Taken, ReadEnd>
    ensures bytes { IfOk result (λ taken. IfSome (S.left source.old) (λ text.
        taken.bytes.items ≡ take (most + 1) text)) }
    ensures gone { OnOk result (IfSome (S.left source.old) (λ text.
        S.left source.new ≡ Some (drop (most + 1) text))) }
    ensures limit { IfOk result (λ taken. length taken.bytes.items ≤ most + 1) }
    ensures whole { IfOk result (λ taken.
        (taken.whole ≡ false) ↔ (length taken.bytes.items ≡ most + 1)) }
    ensures fits { IfOk result (λ taken. IsTrue taken.whole → length taken.bytes.items ≤ most) }
    ensures end { IfOk result (λ taken. IsTrue taken.whole → IfSome (S.left source.old) (λ text.
        (taken.bytes.items ≡ text) × (S.left source.new ≡ Some []))) }

    // After a refusal some of the first bytes are gone.
    ensures refused { OnErr result ((bytes : List ℕ)
        × Takes (S.left source.old) (S.left source.new) bytes
        × (length bytes ≤ most + 1) × (steps.new ≤ steps.old + (length bytes + 1))) }

    ensures fault { IsErrOf result ReadEnd.Fault → Rose (S.faults source.old) (S.faults source.new) }
    ensures never_falls { S.faults source.old ≤ S.faults source.new }

    ensures reads { IfOk result (λ taken.
        steps.new ≤ steps.old + (length taken.bytes.items + (if taken.whole then 1 else 0))) }
    ensures at_most { steps.new ≤ steps.old + (most + 1) }
    ensures onward { steps.old ≤ steps.new }
{
    let mut bytes = Vec::new(alloc);
    let mut piece = [0u8; PIECE];
    while bytes.len() <= most {
        let room = (most - bytes.len()).min(PIECE - 1) + 1;
        let count = read_piece(source, &mut piece[..room], steps)?;
        if count == 0 {
            return Ok(Taken { bytes, whole: true });
        }
        bytes.extend_from_slice(&piece[..count])?;
    }
    Ok(Taken {
        bytes,
        whole: false,
    })
}

fn read_all_over<S: Source, L: Ledger>(
    alloc: Global,
    source: &mut S,
    most: usize,
    blank: Blank,
) -> Result<Taken, ReadEnd>
    requires name { blank.name ≡ L.name }
    requires whole { blank.parts ≡ L.parts }
    requires one { blank.parts ≡ 1 }
    ensures bytes { IfOk result (λ taken. IfSome (S.left source.old) (λ text.
        taken.bytes.items ≡ take (most + 1) text)) }
    ensures gone { OnOk result (IfSome (S.left source.old) (λ text.
        S.left source.new ≡ Some (drop (most + 1) text))) }
    ensures limit { IfOk result (λ taken. length taken.bytes.items ≤ most + 1) }
    ensures whole { IfOk result (λ taken.
        (taken.whole ≡ false) ↔ (length taken.bytes.items ≡ most + 1)) }
    ensures fits { IfOk result (λ taken. IsTrue taken.whole → length taken.bytes.items ≤ most) }
    ensures end { IfOk result (λ taken. IsTrue taken.whole → IfSome (S.left source.old) (λ text.
        (taken.bytes.items ≡ text) × (S.left source.new ≡ Some []))) }
    ensures refused { OnErr result (TakesUpTo (most + 1) (S.left source.old) (S.left source.new)) }
    ensures fault { IsErrOf result ReadEnd.Fault → Rose (S.faults source.old) (S.faults source.new) }
    ensures never_falls { S.faults source.old ≤ S.faults source.new }
{
    let mut steps = Steps::<L>::new(blank);
    read_all_counted(alloc, source, most, &mut steps)
}

/// Reads a source to its end, or until `most + 1` bytes are taken: one more than is wanted, so that a
/// text that is too long shows. What is behind them stays in the source.
pub fn read_all<S: Source>(alloc: Global, source: &mut S, most: usize) -> Result<Taken, ReadEnd>
    ensures bytes { IfOk result (λ taken. IfSome (S.left source.old) (λ text.
        taken.bytes.items ≡ take (most + 1) text)) }
    ensures gone { OnOk result (IfSome (S.left source.old) (λ text.
        S.left source.new ≡ Some (drop (most + 1) text))) }
    ensures limit { IfOk result (λ taken. length taken.bytes.items ≤ most + 1) }
    ensures whole { IfOk result (λ taken.
        (taken.whole ≡ false) ↔ (length taken.bytes.items ≡ most + 1)) }
    ensures fits { IfOk result (λ taken. IsTrue taken.whole → length taken.bytes.items ≤ most) }
    ensures end { IfOk result (λ taken. IsTrue taken.whole → IfSome (S.left source.old) (λ text.
        (taken.bytes.items ≡ text) × (S.left source.new ≡ Some []))) }

    // After a refusal some of the first bytes are gone.
    ensures refused { OnErr result (TakesUpTo (most + 1) (S.left source.old) (S.left source.new)) }

    ensures fault { IsErrOf result ReadEnd.Fault → Rose (S.faults source.old) (S.faults source.new) }
    ensures never_falls { S.faults source.old ≤ S.faults source.new }
{
    read_all_over::<S, Brand>(alloc, source, most, Blank::new(1))
}
