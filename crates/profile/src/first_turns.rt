//! The first profile of a nest.

ghost use Rattle.std.specs.Prelude.{◌≡◌, ◌+◌, ◌-◌, ◌≤◌, ◌^◌, ◌+ℤ◌, pos, [], true, length, option_map, IfOk, IfSome, FitsSigned};
ghost use Rattle.std.specs.Int.{w64};
ghost use Rattle.nest_lang.specs.Rules.{loops_keep};
ghost use Rattle.nest_lang.specs.Stores.{store_of};
ghost use Rattle.nest_lang.specs.Turns.{IsPositionIn, entry_steps};
ghost use Rattle.profile.specs.FirstProfiles.{IsFirstProfile, IsProfileFrom, entered, has_turn, goes_on};

use crate::sampler::{Sampler, Samples};
use block_exec::{Blind, Halt, MemoryPort, Run};
use nest_lang::{Budget, Nest, Outer, State, Turned};
use plain_interp::{Entered, enter, run_turns};
use std::alloc::{AllocError, Global};

/// What the first profile of a nest gives.
#[derive(Drop)]
pub enum FirstProfile {
    /// There is none: the head of the outermost `for` trapped or was limited, or that `for` has no turn.
    Missing,
    /// It did not go through: after so many whole turns the run ended, trapped or was limited, or all turns were done and
    /// the `for` has none left.
    Short(i64),
    /// It went through, and this was observed.
    Whole(Samples),
}

/// Where the turns of the outermost loop begin: its position, and the steps that are left then.
#[derive(Clone, Copy)]
struct Start {
    outer: Outer,
    steps: Budget,
}

/// Profiles the first turns of a nest from a state, so many at most, with the steps of a budget, at most 2^32
/// (`specs/FirstProfiles`). The state is then the one after these turns. There are at most 256 scalars. It is
/// refused only where there is no memory for what is observed.
pub fn first_profile(
    alloc: Global,
    nest: &Nest,
    state: &mut State,
    steps: Budget,
    turns: u64,
) -> Result<FirstProfile, AllocError>
    requires steps { steps.left + steps.used ≤ 2 ^ 32 }
    requires scalars { length state.old.scalars ≤ 256 }
    requires rules { loops_keep nest.now.loops ≡ true }
    ensures { IfOk result (λ found. IsFirstProfile nest.now.loops turns state.old steps.left found) }
{
    let State { memory, scalars } = state;
    let Some(start) = start_of(nest, memory, scalars, steps) else {
        return Ok(FirstProfile::Missing);
    };
    if !has_turn(start.outer.left) {
        return Ok(FirstProfile::Missing);
    }
    profile_from(alloc, nest, start, memory, scalars, turns)
}

/// Whether there is a further turn, where so many are left of a `for`.
fn has_turn(left: Option<u64>) -> bool
    ensures { result ≡ has_turn left }
{
    left != Some(0)
}

/// Whether all turns went, and there is a further one.
fn goes_on(turned: Turned, left: Option<u64>) -> bool
    ensures { result ≡ goes_on turned left }
{
    match turned {
        Turned::Went => has_turn(left),
        _ => false,
    }
}

/// Enters the outermost loop. None where its head traps or is limited.
fn start_of(nest: &Nest, memory: &mut [i64], scalars: &mut [i64], steps: Budget) -> Option<Start>
    requires steps { steps.left + steps.used ≤ 2 ^ 32 }
    requires scalars { length scalars.old ≤ 256 }
    requires rules { loops_keep nest.now.loops ≡ true }
    ensures position { option_map (λ start. start.outer) result ≡ entered nest.now.loops (store_of memory.old scalars.old []) steps.left }
    ensures steps { IfSome result (λ start. (start.steps.left ≡ steps.left - entry_steps nest.now.loops) × (start.steps.left + start.steps.used ≤ 2 ^ 32)) }
    ensures placed { IfSome result (λ start. IsPositionIn nest.now.loops start.outer × (start.outer.next ≡ pos 0)) }
    ensures memory { memory.new ≡ memory.old }
    ensures scalars { scalars.new ≡ scalars.old }
{
    let mut port = MemoryPort::new(memory);
    let mut watch = Blind;
    let mut run = Run {
        scalars,
        locals: [0; 16],
        port: &mut port,
        steps,
        watch: &mut watch,
        halt: Halt::NONE,
    };
    let entered = enter(&mut run, nest);
    let steps = run.steps;
    match entered {
        Entered::At(outer) => Some(Start { outer, steps }),
        Entered::Trapped(_) => None,
        Entered::Limited => None,
    }
}

/// Profiles turns from a position of the outermost loop on.
fn profile_from(
    alloc: Global,
    nest: &Nest,
    start: Start,
    memory: &mut [i64],
    scalars: &mut [i64],
    turns: u64,
) -> Result<FirstProfile, AllocError>
    requires steps { start.steps.left + start.steps.used ≤ 2 ^ 32 }
    requires scalars { length scalars.old ≤ 256 }
    requires rules { loops_keep nest.now.loops ≡ true }
    requires position { IsPositionIn nest.now.loops start.outer }
    requires first { start.outer.next ≡ pos 0 }
    ensures { IfOk result (λ found. IsProfileFrom nest.now.loops turns (store_of memory.old scalars.old []) start.steps.left start.outer found) }
{
    let mut port = MemoryPort::new(memory);
    let mut watch = Sampler::new(alloc);
    let mut run = Run {
        scalars,
        locals: [0; 16],
        port: &mut port,
        steps: start.steps,
        watch: &mut watch,
        halt: Halt::NONE,
    };
    let mut outer = start.outer;
    let turned = run_turns(&mut run, nest, &mut outer, turns);
    if !goes_on(turned, outer.left) {
        return Ok(FirstProfile::Short(outer.next));
    }
    Ok(FirstProfile::Whole(watch.finish()?))
}
