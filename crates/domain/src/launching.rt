//! Launch: whether every predicted instance of a chunk passes its checks.

ghost use Rattle.std.specs.Prelude.{◌≡◌, ◌<◌, ◌≤◌, ◌^◌, ℤ, pos, ◌+ℤ◌, ◌≤ℤ◌, ◌<ℤ◌, int_lt, length, IfOk, IfErr};
ghost use Rattle.affine.specs.Forms.{AllWithinSize};
ghost use Rattle.domain.specs.Tables.{depth, block_at, IsTable};
ghost use Rattle.domain.specs.Instances.{block_of, counter};
ghost use Rattle.domain.specs.Launches.{block_width, head_by, data_failure, IsLaunched, IsHeld};

use crate::checks::loop_failure;
use crate::chunk::Chunk;
use crate::held::{Held, HeldWhy, Launched};
use crate::instance::Instance;
use crate::prediction::Prediction;
use nest_lang::Part;

/// The most instances of a launched chunk.
const MOST_INSTANCES: u64 = 65_536;

/// The most addresses that are expected of a launched chunk, counted for each access with a form.
const MOST_ADDRESSES: u64 = 2_097_152;

impl<const D: usize> Prediction<D> {
    /// How many addresses are expected of a block's accesses.
    fn width(&self, rank: u8) -> u64
        requires few { D < 7 }
        requires block { rank < length self.now.blocks }
        ensures width { result ≡ block_width (block_at self.now rank) }
        ensures small { result ≤ 4160 }
    {
        self.block(rank).width()
    }

    /// The checks of the head of an inner loop.
    fn head_failure(&self, inst: &Instance<D>) -> Option<HeldWhy>
        requires few { D < 7 }
        requires block { inst.now.block < length self.now.blocks }
        requires near { AllWithinSize (2 ^ 33) inst.now.at }
        ensures { result ≡ head_by (block_of self.now inst.now).part (block_of self.now inst.now).level self.now inst.now.at }
    {
        let block = self.block(inst.block);
        if block.part != Part::Head || block.level < 2 {
            return None;
        }
        let around = block.level as usize - 1;
        let level = self.level(around);
        let trip = self.trip(around, &inst.at);
        loop_failure(level.kind, &level.lower, trip, inst.at[around], &inst.at)
    }

    /// The checks of an instance but that of the number of instances and of their widths.
    pub(crate) fn data_failure(&self, inst: &Instance<D>, words: u64) -> Option<HeldWhy>
        requires few { D < 7 }
        requires block { inst.now.block < length self.now.blocks }
        requires near { AllWithinSize (2 ^ 33) inst.now.at }
        ensures { result ≡ data_failure self.now (pos words) inst.now }
    {
        let block = self.block(inst.block);
        let scalars = block.scalars_failure(&inst.at);
        if scalars.is_some() {
            return scalars;
        }
        let stores = block.stores_failure(words, &inst.at);
        if stores.is_some() {
            return stores;
        }
        self.head_failure(inst)
    }
}

/// Whether a chunk is launched, over a memory of so many words. It is, with the number of its predicted instances, where
/// none of them fails a check; else it is held by the first instance, in original order, at which a check fails. The
/// checks of an instance, in order:
///
/// 1. it is at most the 65,536th, and the widths of the accesses with forms, summed over the instances up to and with
///    this one, are at most 2,097,152;
/// 2. each expected scalar is an i64;
/// 3. each address in the expected interval of a store is a word;
/// 4. at the head of an inner `for` the lower bound is an i64, the trip isn't negative, and where it isn't 0 the value of
///    the loop's name in its last turn is an i64;
/// 5. at the head of an inner `while`, with its last counter 0, the trip isn't negative.
///
/// The chunk begins at a turn from 0 to 2^32 and has 1 to 1,024 turns; D is at most 6. It takes one pass and no memory.
pub fn launch<const D: usize>(
    pred: &Prediction<D>,
    chunk: Chunk,
    words: u64,
) -> Result<Launched, Held<D>>
    requires few { D < 7 }
    requires from { pos 0 ≤ℤ chunk.first }
    requires to { chunk.first ≤ℤ pos (2 ^ 32) }
    requires some { pos 1 ≤ℤ chunk.turns }
    requires most { chunk.turns ≤ℤ pos 1024 }
    ensures launched { IfOk result (λ launched. IsLaunched pred.now (pos words) chunk launched.instances) }
    ensures held { IfErr result (λ held. IsHeld pred.now (pos words) chunk held.at held.why) }
{
    let mut at = pred.opening(chunk.first);
    let mut instances = 0;
    let mut widths = 0;
    'walk: while holds(chunk, &at) {
        let width = pred.width(at.block);
        if instances >= MOST_INSTANCES || widths + width > MOST_ADDRESSES {
            return Err(Held {
                at,
                why: HeldWhy::Many,
            });
        }
        if let Some(why) = pred.data_failure(&at, words) {
            return Err(Held { at, why });
        }
        at = pred.next(&at);
        instances += 1;
        widths += width;
    }
    Ok(Launched { instances })
}

/// Whether the turn of an instance is one of the chunk's.
fn holds<const D: usize>(chunk: Chunk, inst: &Instance<D>) -> bool
    requires some { 0 < D }
    requires from { pos 0 ≤ℤ chunk.first }
    requires to { chunk.first ≤ℤ pos (2 ^ 32) }
    requires turns { pos 1 ≤ℤ chunk.turns }
    requires most { chunk.turns ≤ℤ pos 1024 }
    ensures { result ≡ int_lt (counter inst.now.at 0) (chunk.first +ℤ chunk.turns) }
{
    inst.at[0] < chunk.first + chunk.turns
}
