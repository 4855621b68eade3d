//! All bytes are put into a sink.
ghost use Rattle.std.specs.Prelude.{◌≡◌, ◌+◌, ◌<◌, ◌≤◌, ℕ, [], length, take, IfOk, OnOk, OnErr};
ghost use Rattle.nest_io.specs.Faults.{Rose};
ghost use Rattle.nest_io.specs.Bytes.{Appends, AppendsFront};

use crate::{Failed, Sink, Steps};
use std::marker::Brand;
use std::sync::ledger::{Blank, Ledger};

// One write is one step.
fn write_piece<K: Sink, L: Ledger>(
    sink: &mut K,
    piece: &[u8],
    steps: &mut Steps<L>,
) -> Result<usize, Failed>
    ensures most { IfOk result (λ count. count ≤ length piece.now) }
    ensures least { IfOk result (λ count. 0 < length piece.now → 1 ≤ count) }
    ensures put { IfOk result (λ count.
        Appends (K.held sink.old) (K.held sink.new) (take count piece.now)) }
    ensures nothing { OnErr result (Appends (K.held sink.old) (K.held sink.new) []) }
    ensures cause { OnErr result (Rose (K.faults sink.old) (K.faults sink.new)) }
    ensures never_falls { K.faults sink.old ≤ K.faults sink.new }
    ensures step { steps.new ≡ steps.old + 1 }
{
    steps.tick();
    sink.write(piece)
}

/// `write_all`, where each write to the sink is one step. A write puts at least one byte, or it is the
/// last one and fails.
pub fn write_all_counted<K: Sink, L: Ledger>(
    sink: &mut K,
    bytes: &[u8],
    steps: &mut Steps<L>,
) -> Result<(), Failed>
    ensures put { OnOk result (Appends (K.held sink.old) (K.held sink.new) bytes.now) }

    // After a fault the first `put` bytes stand in the sink, and not all of them.
    ensures front { OnErr result ((put : ℕ) × (put < length bytes.now)
        × Appends (K.held sink.old) (K.held sink.new) (take put bytes.now)
        × (steps.new ≤ steps.old + (put + 1))) }

    ensures cause { OnErr result (Rose (K.faults sink.old) (K.faults sink.new)) }
    ensures never_falls { K.faults sink.old ≤ K.faults sink.new }

    ensures writes { steps.new ≤ steps.old + length bytes.now }
    ensures onward { steps.old ≤ steps.new }
{
    let mut rest = bytes;
    while !rest.is_empty() {
        let count = write_piece(sink, rest, steps)?;
        rest = &rest[count..];
    }
    Ok(())
}

fn write_all_over<K: Sink, L: Ledger>(
    sink: &mut K,
    bytes: &[u8],
    blank: Blank,
) -> Result<(), Failed>
    requires name { blank.name ≡ L.name }
    requires whole { blank.parts ≡ L.parts }
    requires one { blank.parts ≡ 1 }
    ensures put { OnOk result (Appends (K.held sink.old) (K.held sink.new) bytes.now) }
    ensures front { OnErr result (AppendsFront (K.held sink.old) (K.held sink.new) bytes.now) }
    ensures cause { OnErr result (Rose (K.faults sink.old) (K.faults sink.new)) }
    ensures never_falls { K.faults sink.old ≤ K.faults sink.new }
{
    let mut steps = Steps::<L>::new(blank);
    write_all_counted(sink, bytes, &mut steps)
}

/// Puts all bytes into the sink. After `Failed` a front of them was put.
pub fn write_all<K: Sink>(sink: &mut K, bytes: &[u8]) -> Result<(), Failed>
    ensures put { OnOk result (Appends (K.held sink.old) (K.held sink.new) bytes.now) }

    ensures front { OnErr result (AppendsFront (K.held sink.old) (K.held sink.new) bytes.now) }

    ensures cause { OnErr result (Rose (K.faults sink.old) (K.faults sink.new)) }
    ensures never_falls { K.faults sink.old ≤ K.faults sink.new }
{
    write_all_over::<K, Brand>(sink, bytes, Blank::new(1))
}
