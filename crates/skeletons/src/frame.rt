//! What a skeleton keeps of a chunk.

ghost use Rattle.std.specs.Prelude.{◌≡◌};
ghost use Rattle.skeletons.specs.Frames.{IsFrame, IsPlaceOf, instance_at};

use crate::inverse::{array_of, counters_of};
use crate::places::counters;
use affine::Matrix;
use domain::{Chunk, Instance, Prediction};
use level_walk::merges::Best;
use level_walk::scans::BlockScan;
use transform::Schedule;

/// What a skeleton keeps: the prediction, the schedule and the chunk, the rows of the inverse of the schedule's matrix,
/// and of each block how its places are found.
#[derive(Drop)]
pub(crate) struct Frame<'a, const D: usize> {
    pub pred: &'a Prediction<D>,
    pub schedule: &'a Schedule<D>,
    pub chunk: Chunk,
    pub inverse: Matrix<D>,
    pub blocks: Vec<BlockScan>,
}

/// The instance at a place of a block.
pub(crate) fn instance<const D: usize>(frame: &Frame<'_, D>, best: &Best) -> Instance<D>
    requires frame { IsFrame D (record { table = frame.now.pred.now; schedule = frame.now.schedule.now; chunk = frame.now.chunk }) frame.now.inverse frame.now.blocks.items }
    requires place { IsPlaceOf (record { table = frame.now.pred.now; schedule = frame.now.schedule.now; chunk = frame.now.chunk }) best.now.rank best.now.point.items }
    ensures { result ≡ instance_at (record { table = frame.now.pred.now; schedule = frame.now.schedule.now; chunk = frame.now.chunk }) frame.now.inverse best.now }
{
    let rank = best.rank as u8;
    let block = frame.pred.block(rank);
    let place: [i64; D] = array_of(best.point.as_slice());
    let point = frame.inverse.map(&place);
    Instance {
        block: rank,
        at: counters_of(&point, counters(frame.pred, block)),
    }
}
