//! Padded points.

ghost use Rattle.std.specs.Prelude.{◌≡◌, ◌<◌, ℕ, FitsSigned};
ghost use Rattle.std.specs.Int.{w64};
ghost use Rattle.domain.specs.Tables.{trip};
ghost use Rattle.domain.specs.Instances.{IsInstance, block_of, padded, place, turns_of};

use crate::instance::Instance;
use crate::prediction::Prediction;
use nest_lang::Part;

/// The padded point of an instance of a present block: its counters, and then zeros; after the counters of a block after
/// an inner loop the number of turns of that loop, which is the predicted trip, or 0 where that is negative. Each of its
/// numbers is an i64, as in a launched chunk. D is at most 6.
pub fn padded<const D: usize>(pred: &Prediction<D>, inst: &Instance<D>) -> [i64; D]
    requires few { D < 7 }
    requires is { IsInstance pred.now inst.now }
    requires fits { (k : ℕ) → FitsSigned w64 (place pred.now (block_of pred.now inst.now) inst.now.at k) }
    ensures { result ≡ padded pred.now inst.now }
{
    let block = pred.block(inst.block);
    let mut point = inst.at;
    if let Part::Post = block.part {
        let around = block.level as usize;
        point[around] = turns(pred, around, &inst.at);
    }
    point
}

/// The number of turns of the loop inside so many others.
fn turns<const D: usize>(pred: &Prediction<D>, around: usize, at: &[i64; D]) -> i64
    requires few { D < 7 }
    requires inside { around < D }
    requires fits { FitsSigned w64 (turns_of (trip pred.now around at.now)) }
    ensures { result ≡ turns_of (trip pred.now around at.now) }
{
    let trip = pred.trip(around, at);
    if trip < 0 { 0 } else { trip as i64 }
}
