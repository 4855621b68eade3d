//! Instances and accesses, as lines name them.

ghost use Rattle.std.specs.Prelude.{◌≡◌, ◌<◌, ◌≤◌, length, take};
ghost use Rattle.nest_lang.specs.Blocks.{present_blocks};
ghost use Rattle.report.specs.Places as places;

use crate::line::{At, Spot};
use arrayvec::ArrayVec;
use domain::Instance;
use nest_lang::{AccessRef, BlockRef, Nest};

impl At {
    /// An instance of a present block of a nest of at most six loops, by the block's name and the counters that it has.
    #[tactic(auto, unfolding(crate::specs::Places::at_of))]
    pub fn of<const D: usize>(nest: &Nest, inst: &Instance<D>) -> At
        requires few { D < 7 }
        requires loops { length nest.now.loops ≤ 6 }
        requires present { inst.now.block < length (present_blocks nest.now.loops) }
        ensures { result ≡ places.at_of nest.now.loops inst.now }
    {
        let block = block_of(nest, inst.block);
        let count = nest.counters(block).unwrap_or(0);
        At {
            block,
            counters: firsts(&inst.at, count as usize),
        }
    }
}

impl Spot {
    /// An access of a present block of a nest of at most six loops, by the block's name.
    #[tactic(auto, unfolding(crate::specs::Places::spot_of))]
    pub fn of(nest: &Nest, access: AccessRef) -> Spot
        requires loops { length nest.now.loops ≤ 6 }
        requires present { access.block < length (present_blocks nest.now.loops) }
        ensures { result ≡ places.spot_of nest.now.loops access }
    {
        Spot {
            block: block_of(nest, access.block),
            access: access.access,
        }
    }
}

/// The present block of a rank.
#[tactic(auto, unfolding(crate::specs::Places::block_of))]
pub fn block_of(nest: &Nest, rank: u8) -> BlockRef
    requires loops { length nest.now.loops ≤ 6 }
    requires present { rank < length (present_blocks nest.now.loops) }
    ensures { result ≡ places.block_of nest.now.loops rank }
{
    let Some(block) = nest.present(rank) else {
        unreachable!()
    };
    block
}

/// The first numbers, as many as there are at most.
fn firsts<const D: usize>(numbers: &[i64; D], most: usize) -> ArrayVec<i64, 6>
    requires { D < 7 }
    ensures { result.items ≡ take most numbers.now }
{
    let mut found = ArrayVec::new();
    for place in 0..most.min(D) {
        found.push(numbers[place]);
    }
    found
}
