//! A profile, and what it leads to.

ghost use Rattle.std.specs.Prelude.{◌≡◌, [], IfOk};
ghost use Rattle.controller.specs.Machines.{IsPlaced};
ghost use Rattle.controller.specs.Courses.{Led};

use crate::course::Course;
use crate::judging::judge;
use crate::machine::Machine;
use crate::stage::Stage;
use crate::turns::ending_of;
use nest_lang::{Ending, Turned};
use profile::Sampler;
use report::Line;
use std::alloc::{AllocError, Global};

/// Profiles turns where the loop has one, tells how many were done whole, and judges what was observed where there is a
/// further turn.
pub fn profile<const D: usize>(
    alloc: Global,
    lines: &mut Vec<Line>,
    course: &Course<'_, D>,
    machine: &mut Machine<'_>,
) -> Result<Stage<D>, AllocError>
    requires { IsPlaced course.now machine.old.moment }
    ensures led { IfOk result (λ stage. Led course.now Stage.Profiles machine.old.moment lines.old.items stage machine.new.moment lines.new.items []) }
    ensures posts { machine.new.posts ≡ machine.old.posts }
{
    if !machine.has_turn() {
        return Ok(Stage::Over(Ending::Ended));
    }
    let turns = machine.turns_within(course.sample);
    let first = machine.outer().next;
    let (turned, watch) = machine.run(course, turns, Sampler::new(alloc));
    let done = machine.outer().next - first;
    lines.push(Line::Profile { first, turns: done })?;
    match turned {
        Turned::Went => {
            if !machine.has_turn() {
                return Ok(Stage::Over(Ending::Ended));
            }
            judge(alloc, lines, course, &watch.finish()?)
        }
        end => Ok(Stage::Over(ending_of(end))),
    }
}
