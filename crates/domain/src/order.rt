//! The successor of an instance.

ghost use Rattle.std.specs.Prelude.{◌≡◌, ◌<◌, length};
ghost use Rattle.domain.specs.declared.chunk.Chunk.{Chunk};
ghost use Rattle.domain.specs.Instances.{Predicted, IsSuccessor};
ghost use Rattle.domain.specs.Steps.{CanTurn};

use crate::instance::Instance;
use crate::prediction::Prediction;

/// The instance after an instance: in each chunk for which the instance is predicted the next one in original order, and
/// after the chunk's last instance that of the first present block at the next turn, with inner counters 0. Each
/// counter is below 2^63 - 1, as in a launched chunk. D is at most 6. It takes O(D) steps and no memory.
pub fn successor<const D: usize>(pred: &Prediction<D>, inst: &Instance<D>) -> Instance<D>
    requires few { D < 7 }
    requires block { inst.now.block < length pred.now.blocks }
    requires can { CanTurn inst.now.at }
    ensures { (chunk : Chunk) → Predicted pred.now chunk inst.now → IsSuccessor pred.now chunk inst.now result }
{
    pred.next(inst)
}
