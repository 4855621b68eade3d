//! A million observations of the address of one access, over two loops.
use block_exec::Watch;
use nest_lang::{BlockRef, Part, Seen};
use profile::Sampler;
use std::alloc::Global;

/// Turns of each loop.
const TURNS: i64 = 1_000;

const PRE2: BlockRef = BlockRef {
    part: Part::Pre,
    level: 2,
};

/// The coefficients of the line on which the observations lie, where the outer counter rises by so much a turn: by 1 it
/// has a step early, and by 2 none, so that every sample is looked up. None where they lie on no line, or for want of
/// memory.
pub fn fitted(alloc: Global, step: i64) -> Option<[i64; 2]> {
    let mut sampler = Sampler::new(alloc);
    for outer in 0..TURNS {
        for inner in 0..TURNS {
            let counters = [outer.wrapping_mul(step), inner];
            sampler.see(PRE2, &counters, Seen::Address(1), i128::from(inner));
        }
    }
    let samples = sampler.finish().ok()?;
    let tube = samples
        .fit_of::<2>(alloc, PRE2, Seen::Address(1), 64)
        .ok()??;
    Some(tube.line.coef)
}
