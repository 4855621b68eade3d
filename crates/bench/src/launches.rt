//! Whether chunks over two loops may be launched.
ghost use Rattle.std.specs.Prelude.{◌≡◌, ◌≤◌, ◌^◌, pos, [], ◌∷◌, length, unsigned_abs};
ghost use Rattle.domain.specs.Instances.{counter};

use affine::Form;
use domain::{AccessForm, BlockForms, Chunk, LoopForms, LoopKind, Prediction, launch};
use nest_lang::Part;
use std::alloc::{AllocError, Global};

/// The words of the memory.
const WORDS: u64 = 1_024;

/// The instances that are launched in so many rounds, each of a chunk of so many turns of the outer loop, where the inner
/// one has this trip.
pub fn launched(alloc: Global, trip: u16, turns: u16, rounds: u16) -> Result<u64, AllocError> {
    let pred = counts(alloc, trip.min(4_096))?;
    let mut instances: u64 = 0;
    for _ in 0..rounds {
        instances = instances.wrapping_add(launched_once(&pred, turns));
    }
    Ok(instances)
}

/// The instances of a chunk of so many turns, from 1 to 1,024, and none where it is held.
fn launched_once(pred: &Prediction<2>, turns: u16) -> u64 {
    let chunk = Chunk {
        first: 4,
        turns: i64::from(turns.clamp(1, 1_024)),
    };
    match launch(pred, chunk, WORDS) {
        Ok(launched) => launched.instances,
        Err(_) => 0,
    }
}

/// `for i { for j = 0 below trip { [i] = [i] + 1 } }`, where the trip is at most 4,096.
fn counts(alloc: Global, trip: u16) -> Result<Prediction<2>, AllocError>
    requires { trip ≤ 2 ^ 12 }
{
    let mut accesses = Vec::new(alloc);
    accesses.push(at_outer(false))?;
    accesses.push(at_outer(true))?;
    two_loops(alloc, constant(trip), accesses)
}

/// Two loops: the inner one has this trip, and a block with these accesses.
fn two_loops(
    alloc: Global,
    trip: Form<2>,
    accesses: Vec<AccessForm<2>>,
) -> Result<Prediction<2>, AllocError>
    requires few { length accesses.items ≤ 64 }
    requires outer { unsigned_abs (counter trip.coef 0) ≤ 1 }
    requires inner { unsigned_abs (counter trip.coef 1) ≤ 1 }
    requires constant { unsigned_abs trip.cst ≤ 2 ^ 12 }
{
    let lower = constant(0);
    let mut levels = Vec::new(alloc);
    levels.push(LoopForms {
        kind: LoopKind::For(1),
        lower: None,
        trip: None,
    })?;
    levels.push(LoopForms {
        kind: LoopKind::For(1),
        lower: Some(lower),
        trip: Some(trip),
    })?;
    let mut blocks = Vec::new(alloc);
    blocks.push(BlockForms {
        part: Part::Head,
        level: 2,
        scalars: Vec::new(alloc),
        accesses: Vec::new(alloc),
    })?;
    blocks.push(BlockForms {
        part: Part::Pre,
        level: 2,
        scalars: Vec::new(alloc),
        accesses,
    })?;
    Ok(Prediction::new(levels, blocks))
}

/// The form of two counters that is this number.
fn constant(number: u16) -> Form<2>
    ensures { result ≡ record { coef = pos 0 ∷ pos 0 ∷ []; cst = pos number } }
{
    Form {
        coef: [0, 0],
        cst: i64::from(number),
    }
}

/// An access at the outer counter.
fn at_outer(stores: bool) -> AccessForm<2> {
    AccessForm {
        stores,
        line: Some(Form {
            coef: [1, 0],
            cst: 0,
        }),
        low: 0,
        high: 0,
    }
}
