//! Turns in original order.

ghost use Rattle.std.specs.Prelude.{◌≡◌, ◌≤◌, ◌-ℤ◌, ◌++◌, ◌∷◌, [], true, FitsSigned, IfOk};
ghost use Rattle.std.specs.Int.{w64};
ghost use Rattle.report.specs.declared.line.Line.TheVariants as said;
ghost use Rattle.nest_lang.specs.Runs.{finish_of_ending};
ghost use Rattle.nest_lang.specs.Turns.{finish_of_turned};
ghost use Rattle.nest_lang.specs.TurnLaws.{over_is_done};
ghost use Rattle.profile.specs.FirstProfiles.{has_turn};
ghost use Rattle.controller.specs.Machines.{IsPlaced};
ghost use Rattle.controller.specs.Courses.{Led, ending_of, next_stage};

use crate::course::Course;
use crate::machine::Machine;
use crate::stage::Stage;
use block_exec::Blind;
use nest_lang::{Ending, Turned};
use report::Line;
use std::alloc::AllocError;

/// Runs so many turns in original order, or what is left of a `for`, and tells how many were done whole. A profile follows
/// where all of them went.
pub fn plainly<const D: usize>(
    lines: &mut Vec<Line>,
    course: &Course<'_, D>,
    machine: &mut Machine<'_>,
    turns: u64,
) -> Result<Stage<D>, AllocError>
    requires placed { IsPlaced course.now machine.old.moment }
    requires turn { has_turn machine.old.moment.outer.left ≡ true }
    requires some { 1 ≤ turns }
    ensures led { IfOk result (λ stage. Led course.now (Stage.Plainly turns) machine.old.moment lines.old.items stage machine.new.moment lines.new.items []) }
    ensures posts { machine.new.posts ≡ machine.old.posts }
{
    let first = machine.outer().next;
    let turns = machine.turns_within(turns);
    let (turned, _) = machine.run(course, turns, Blind);
    after_turns(lines, machine, first, turned)
}

/// Tells turns that were run in original order from a first one on. A profile follows where they went.
pub fn after_turns<const D: usize>(
    lines: &mut Vec<Line>,
    machine: &Machine<'_>,
    first: i64,
    turned: Turned,
) -> Result<Stage<D>, AllocError>
    requires { FitsSigned w64 (machine.now.moment.outer.next -ℤ first) }
    ensures { IfOk result (λ stage. (stage ≡ next_stage turned) × (lines.new.items ≡ lines.old.items ++ said.Plain first (machine.now.moment.outer.next -ℤ first) ∷ [])) }
{
    lines.push(Line::Plain {
        first,
        turns: machine.outer().next - first,
    })?;
    match turned {
        Turned::Went => Ok(Stage::Profiles),
        end => Ok(Stage::Over(ending_of(end))),
    }
}

/// How the run of a nest ends with turns that ended so: it has ended where the loop has.
pub fn ending_of(turned: Turned) -> Ending
    ensures value { result ≡ ending_of turned }
    ensures finish { finish_of_ending result ≡ over_is_done (finish_of_turned turned) }
{
    match turned {
        Turned::Went | Turned::Ended => Ending::Ended,
        Turned::Trapped(trap) => Ending::Trapped(trap),
        Turned::Limited => Ending::Limited,
    }
}
