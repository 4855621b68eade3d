//! Turns of the outermost loop, in two lots.

ghost use Rattle.std.specs.Prelude.{◌≡◌, ◌+◌, ◌≤◌, ◌^◌, length, true, false};
ghost use Rattle.nest_lang.specs.Rules.{loops_keep};

use crate::answer::Asked;
use block_exec::{Halt, MemoryPort, Port, Run, Watch};
use nest_lang::{Budget, Nest, State, Turned};
use nest_text::NestFile;
use plain_interp::{Entered, enter, run_turns};

/// How some turns ended, the number of the next turn and the steps.
pub type Turns = Option<(Turned, i64, u64)>;

/// Enters the first nest of a file and runs two lots of turns of it, under a watch, the second where the first was run
/// whole. None where the nest is not entered.
#[tactic(auto, using(crate::proofs::RuleLaws::loops_keep_of))]
pub fn in_two<W: Watch>(file: &NestFile, state: &mut State, watch: &mut W, asked: Asked) -> Turns
    requires { length state.old.scalars ≤ 256 }
{
    let State { memory, scalars } = state;
    let mut port = MemoryPort::new(memory);
    match file.nest(0) {
        Some(nest) => in_two_over(nest, scalars, &mut port, watch, asked),
        None => None,
    }
}

/// The same over a port and scalars.
fn in_two_over<P: Port, W: Watch>(
    nest: &Nest,
    scalars: &mut [i64],
    port: &mut P,
    watch: &mut W,
    asked: Asked,
) -> Turns
    requires rules { loops_keep nest.now.loops ≡ true }
    requires scalars { length scalars.old ≤ 256 }
    requires plain { (P.expects port.old).verifies ≡ false }
{
    let mut run = Run {
        scalars,
        locals: [0; 16],
        port,
        steps: Budget {
            left: u64::from(asked.steps),
            used: 0,
        },
        watch,
        halt: Halt::NONE,
    };
    let (turned, next) = two_lots(&mut run, nest, asked)?;
    Some((turned, next, run.steps.used))
}

/// The same in a run.
fn two_lots<P: Port, W: Watch>(
    run: &mut Run<'_, P, W>,
    nest: &Nest,
    asked: Asked,
) -> Option<(Turned, i64)>
    requires rules { loops_keep nest.now.loops ≡ true }
    requires steps { run.old.steps.left + run.old.steps.used ≤ 2 ^ 32 }
    requires scalars { length run.old.scalars.now ≤ 256 }
    requires plain { (P.expects run.old.port.now).verifies ≡ false }
{
    let mut outer = match enter(run, nest) {
        Entered::At(outer) => outer,
        Entered::Trapped(_) => return None,
        Entered::Limited => return None,
    };
    let turned = run_turns(run, nest, &mut outer, asked.first);
    if turned != Turned::Went {
        return Some((turned, outer.next));
    }
    let turned = run_turns(run, nest, &mut outer, asked.second);
    Some((turned, outer.next))
}
