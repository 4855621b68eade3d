//! The journey of a nest.

ghost use Rattle.std.specs.Prelude.{◌≡◌, ◌<◌, ◌≤◌, ◌+◌, ◌^◌, length, IfOk, OnErr};
ghost use Rattle.nest_lang.specs.Runs.{finish_of_ending};
ghost use Rattle.profile.specs.Reach.{IsOfI64s};
ghost use Rattle.journeys.specs.Stages.{Profiles};
ghost use Rattle.controller.specs.Courses.{IsUnit, RunsUnit, StagesRan, BrokeOff, UnitBrokeOff};
ghost use Rattle.controller.specs.Machines.{IsPlaced, reach_of};

use crate::chunk::chunk;
use crate::course::{Course, Unit};
use crate::machine::Machine;
use crate::profiles::profile;
use crate::stage::Stage;
use crate::turns::plainly;
use crew::Crew;
use nest_lang::Ending;
use report::Line;
use std::alloc::{AllocError, Global};

/// Runs a nest of D loops with a crew, and tells its journey. The answer is how its run ended.
pub fn run_unit<C: Crew, const D: usize>(
    alloc: Global,
    lines: &mut Vec<Line>,
    unit: &Unit<'_>,
    machine: &mut Machine<'_>,
    crew: &mut C,
) -> Result<Ending, AllocError>
    requires few { D < 7 }
    requires unit { IsUnit unit.now.file.now unit.now.number unit.now.nest.now unit.now.options }
    requires depth { length unit.now.nest.now.loops ≡ D }
    requires count { length machine.old.moment.store.scalars ≡ length unit.now.file.now.scalars }
    requires fits { IsOfI64s machine.old.moment.store }
    requires reach { reach_of machine.old + 131072 ≤ 2 ^ 62 }
    ensures ran { IfOk result (λ ending. RunsUnit unit.now.file.now unit.now.number unit.now.options machine.old lines.old.items (C.handed crew.old) (finish_of_ending ending) machine.new lines.new.items (C.handed crew.new)) }
    ensures broke { OnErr result (UnitBrokeOff unit.now.file.now unit.now.number unit.now.options machine.old (C.handed crew.old) (C.handed crew.new)) }
{
    let course = Course::<D>::of(alloc, unit)?;
    match machine.enter(unit.nest) {
        Ok(()) => run_stages(alloc, lines, &course, machine, crew),
        Err(ending) => Ok(ending),
    }
}

/// Goes from stage to stage, from the first profile to the end.
fn run_stages<C: Crew, const D: usize>(
    alloc: Global,
    lines: &mut Vec<Line>,
    course: &Course<'_, D>,
    machine: &mut Machine<'_>,
    crew: &mut C,
) -> Result<Ending, AllocError>
    requires placed { IsPlaced course.now machine.old.moment }
    requires reach { reach_of machine.old + 131072 ≤ 2 ^ 62 }
    ensures ran { IfOk result (λ ending. StagesRan course.now machine.old lines.old.items (C.handed crew.old) (finish_of_ending ending) machine.new lines.new.items (C.handed crew.new)) }
    ensures broke { OnErr result (BrokeOff course.now Profiles machine.old (C.handed crew.old) (C.handed crew.new)) }
{
    let mut stage = Stage::Profiles;
    'stages: loop {
        stage = match stage {
            Stage::Over(ending) => return Ok(ending),
            Stage::Plainly(turns) => plainly(lines, course, machine, turns)?,
            Stage::Profiles => profile(alloc, lines, course, machine)?,
            Stage::Chunks(chosen) => chunk(alloc, lines, course, machine, chosen, crew)?,
        };
    }
}
