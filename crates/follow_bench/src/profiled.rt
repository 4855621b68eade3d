//! The first turns of a nest, profiled.

ghost use Rattle.std.specs.Prelude.{◌≡◌, ◌≤◌, ◌^◌, pos, true, length, IfSome, IfOk};
ghost use Rattle.nest_lang.specs.Rules.{loops_keep};
ghost use Rattle.nest_lang.specs.Turns.{IsPositionIn};

use block_exec::{Blind, Halt, MemoryPort, Run};
use nest_lang::{Budget, Nest, Outer, Turned};
use plain_interp::{Entered, enter, run_turns};
use profile::{Sampler, Samples};
use std::alloc::{AllocError, Global};

/// More steps than the nests that are shown have.
const STEPS: u64 = 1 << 20;

/// What some turns showed, and where the outermost loop stands behind them.
#[derive(Drop)]
pub struct Profiled {
    pub samples: Samples,
    pub outer: Outer,
}

/// Enters the outermost loop of a nest.
fn entered(nest: &Nest, memory: &mut [i64], scalars: &mut [i64]) -> Option<Outer>
    requires rules { loops_keep nest.now.loops ≡ true }
    requires scalars { length scalars.old ≤ 16 }
    ensures { IfSome result (λ outer. IsPositionIn nest.now.loops outer × (outer.next ≡ pos 0)) }
{
    let mut port = MemoryPort::new(memory);
    let mut watch = Blind;
    let mut run = Run {
        scalars,
        locals: [0; 16],
        port: &mut port,
        steps: Budget {
            left: STEPS,
            used: 0,
        },
        watch: &mut watch,
        halt: Halt::NONE,
    };
    match enter(&mut run, nest) {
        Entered::At(outer) => Some(outer),
        Entered::Trapped(_) => None,
        Entered::Limited => None,
    }
}

/// Profiles the first turns of a nest, so many. None where they don't go through.
pub fn profile_turns(
    alloc: Global,
    nest: &Nest,
    memory: &mut [i64],
    scalars: &mut [i64],
    turns: u32,
) -> Result<Option<Profiled>, AllocError>
    requires rules { loops_keep nest.now.loops ≡ true }
    requires scalars { length scalars.old ≤ 16 }
    ensures { IfOk result (λ found. IfSome found (λ one. IsPositionIn nest.now.loops one.outer)) }
{
    let Some(mut outer) = entered(nest, memory, scalars) else {
        return Ok(None);
    };
    let mut port = MemoryPort::new(memory);
    let mut watch = Sampler::new(alloc);
    let mut run = Run {
        scalars,
        locals: [0; 16],
        port: &mut port,
        steps: Budget {
            left: STEPS,
            used: 0,
        },
        watch: &mut watch,
        halt: Halt::NONE,
    };
    if run_turns(&mut run, nest, &mut outer, u64::from(turns)) != Turned::Went {
        return Ok(None);
    }
    let samples = watch.finish()?;
    Ok(Some(Profiled { samples, outer }))
}
