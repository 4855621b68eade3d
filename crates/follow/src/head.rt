//! One instance of a head, evaluated over a port.

ghost use Rattle.std.specs.Prelude.{◌≡◌, ◌≤◌, ◌+◌, ◌-◌, ◌^◌, [], length, true};
ghost use Rattle.nest_lang.specs.Rules.{strides};
ghost use Rattle.nest_lang.specs.Heads.{head_of};
ghost use Rattle.nest_lang.specs.Stores.{store_of};
ghost use Rattle.block_exec.specs.Halts.{yield_where_left};
ghost use Rattle.block_exec.specs.Moments.{Evaluated, where_left};
ghost use Rattle.block_exec.specs.Runs.{Kept, outside};
ghost use Rattle.block_exec.specs.Sites.{frame_at};
ghost use Rattle.follow.specs.Turnings.{yield_by};

use crate::how::Turns;
use block_exec::{Blind, Cut, Halt, Port, Run, Site, Watch};
use nest_lang::{Budget, Head};

/// What a head yielded or why it did not, and the steps.
#[derive(Clone, Copy, Debug)]
pub(crate) struct Evaluation {
    pub yielded: Result<Turns, Cut>,
    pub halt: Halt,
    pub steps: Budget,
}

/// Evaluates a head.
fn turns_of<P: Port, W: Watch>(
    run: &mut Run<'_, P, W>,
    site: &Site<'_>,
    head: &Head,
) -> Result<Turns, Cut>
    requires steps { run.old.steps.left + run.old.steps.used ≤ 2 ^ 32 }
    requires scalars { length run.old.scalars.now ≤ 256 }
    requires strides { strides head.now ≡ true }
    ensures evaluated { Evaluated W.may (frame_at site.now (P.expects run.old.port.now)) head.now (outside P.memory run.old) (outside P.memory run.new) (yield_where_left yield_by result run.new.halt) }
    ensures kept { Kept P.expects P.basis run.old run.new }
{
    match head {
        Head::For(lower, upper, stride) => {
            let bounds = run.bounds(site, lower, upper, *stride)?;
            Ok(Turns::Bounds(bounds.lower, bounds.trip))
        }
        Head::While(condition) => {
            let holds = run.condition(site, condition)?;
            Ok(Turns::Holds(holds))
        }
    }
}

/// Evaluates an instance of a head over a port.
pub(crate) fn head_over<P: Port>(
    site: &Site<'_>,
    head: &Head,
    scalars: &mut [i64],
    port: &mut P,
    left: u64,
) -> Evaluation
    requires steps { left ≤ 2 ^ 32 }
    requires scalars { length scalars.old ≤ 256 }
    requires strides { strides head.now ≡ true }
    ensures evaluated { yield_where_left yield_by result.yielded result.halt ≡ where_left left (head_of (frame_at site.now (P.expects port.old)) head.now (store_of (P.memory port.old) scalars.old [])).value }
    ensures memory { P.memory port.new ≡ P.memory port.old }
    ensures left { result.steps.left ≡ left - 1 }
    ensures steps { result.steps.left + result.steps.used ≡ left }
    ensures scalars { scalars.new ≡ scalars.old }
    ensures expects { P.expects port.new ≡ P.expects port.old }
    ensures basis { P.basis port.new ≡ P.basis port.old }
{
    let mut watch = Blind;
    let mut run = Run {
        scalars,
        locals: [0; 16],
        port,
        steps: Budget { left, used: 0 },
        watch: &mut watch,
        halt: Halt::NONE,
    };
    let yielded = turns_of(&mut run, site, head);
    Evaluation {
        yielded,
        halt: run.halt,
        steps: run.steps,
    }
}
