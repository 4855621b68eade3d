//! Whole plain runs.

ghost use Rattle.std.specs.Prelude.{◌≡◌, ◌+◌, ◌<◌, ◌≤◌, ◌^◌, ℕ, [], length, true};
ghost use Rattle.nest_lang.specs.Rules.{loops_keep};
ghost use Rattle.nest_lang.specs.Runs.{nest_trace, finish_of_ending};
ghost use Rattle.nest_lang.specs.Traces.{cut, cut_of};
ghost use Rattle.nest_lang.specs.Stores.{store_of};
ghost use Rattle.block_exec.specs.NestCodes.{AreLoopCodes, IsNestCode};
ghost use Rattle.block_exec.specs.Halts.{IsTrap, finish_of};

use crate::loops::{Level, run_loop};
use block_exec::{Blind, Cut, Halt, LoopCode, MemoryPort, NestCode, Places, Registers, Run};
use nest_lang::{Budget, Ending, Nest, State};

/// Runs a nest from a state with the steps of a budget, and says how it ended. What is left of the steps
/// is there for the nest after it. The steps are at most 2^32, and the state has at most 256 scalars.
pub fn run_nest(nest: &Nest, state: &mut State, steps: &mut Budget) -> Ending
    requires steps { steps.old.left + steps.old.used ≤ 2 ^ 32 }
    requires scalars { length state.old.scalars ≤ 256 }
    requires rules { loops_keep nest.now.loops ≡ true }
    ensures ran { (k : ℕ) → steps.old.left < k → cut_of state.new steps.new.left steps.new.used (finish_of_ending result)
        ≡ cut (nest_trace k nest.now.loops state.old) state.old steps.old.left steps.old.used }
    ensures kept { steps.new.left + steps.new.used ≡ steps.old.left + steps.old.used }
    ensures fewer { steps.new.left ≤ steps.old.left }
    ensures scalars { length state.new.scalars ≡ length state.old.scalars }
{
    let State { memory, scalars } = state;
    run_words(nest, &[], memory, scalars, steps)
}

/// The same, by the code of the nest, as far as it has some.
pub fn run_nest_by(nest: &Nest, code: &NestCode, state: &mut State, steps: &mut Budget) -> Ending
    requires code { IsNestCode nest.now code.now }
    requires steps { steps.old.left + steps.old.used ≤ 2 ^ 32 }
    requires scalars { length state.old.scalars ≤ 256 }
    requires rules { loops_keep nest.now.loops ≡ true }
    ensures ran { (k : ℕ) → steps.old.left < k → cut_of state.new steps.new.left steps.new.used (finish_of_ending result)
        ≡ cut (nest_trace k nest.now.loops state.old) state.old steps.old.left steps.old.used }
    ensures kept { steps.new.left + steps.new.used ≡ steps.old.left + steps.old.used }
    ensures fewer { steps.new.left ≤ steps.old.left }
    ensures scalars { length state.new.scalars ≡ length state.old.scalars }
{
    let State { memory, scalars } = state;
    run_words(nest, code.loops(), memory, scalars, steps)
}

/// The same over the words and the scalars, by the code of its loops, as far as there is code.
fn run_words(
    nest: &Nest,
    codes: &[LoopCode],
    memory: &mut [i64],
    scalars: &mut [i64],
    steps: &mut Budget,
) -> Ending
    requires codes { AreLoopCodes nest.now.loops codes.now }
    requires steps { steps.old.left + steps.old.used ≤ 2 ^ 32 }
    requires scalars { length scalars.old ≤ 256 }
    requires rules { loops_keep nest.now.loops ≡ true }
    ensures ran { (k : ℕ) → steps.old.left < k → cut_of (store_of memory.new scalars.new []) steps.new.left steps.new.used (finish_of_ending result)
        ≡ cut (nest_trace k nest.now.loops (store_of memory.old scalars.old [])) (store_of memory.old scalars.old []) steps.old.left steps.old.used }
    ensures kept { steps.new.left + steps.new.used ≡ steps.old.left + steps.old.used }
    ensures fewer { steps.new.left ≤ steps.old.left }
{
    let Some((first, rest)) = nest.loops.as_slice().split_first() else {
        unreachable!()
    };
    let outermost = Level {
        first,
        rest,
        depth: 0,
        codes,
    };
    let mut port = MemoryPort::new(memory);
    let mut watch = Blind;
    let mut run = Run {
        scalars,
        locals: [0; 16],
        port: &mut port,
        steps: *steps,
        watch: &mut watch,
        halt: Halt::NONE,
    };
    let end = run_loop(
        &mut run,
        &outermost,
        &mut Places::new(),
        &mut Registers::new(),
    );
    *steps = run.steps;
    ending_of(end, run.halt)
}

/// How a plain run ends, where no address is verified.
fn ending_of(end: Result<(), Cut>, halt: Halt) -> Ending
    requires { IsTrap halt }
    ensures { finish_of_ending result ≡ finish_of end halt }
{
    match end {
        Ok(()) => Ending::Ended,
        Err(Cut::Halted) => Ending::Trapped(halt.trap()),
        Err(Cut::Limited) => Ending::Limited,
    }
}
