//! The journey of a file.

ghost use Rattle.std.specs.Prelude.{◌≡◌, ◌≤◌, ◌+◌, ◌*◌, ◌^◌, ◌≤ℤ◌, ◌++◌, ℕ, length, pos, IfOk, OnOk, OnErr};
ghost use Rattle.std.specs.List.{All};
ghost use Rattle.profile.specs.Reach.{IsOfI64s};
ghost use Rattle.report.specs.Lines.{CanStand};
ghost use Rattle.journeys.specs.Tellings.{heading};
ghost use Rattle.journeys.specs.Journeys.{IsJourney};
ghost use Rattle.controller.specs.Machines.{reach_of};
ghost use Rattle.controller.specs.Courses.{IsUnit, RunsUnit, RunsNests, UnitBrokeOff, NestsBrokeOff, JourneyHanded};
ghost use Rattle.nest_text.specs.Files.{IsOfText};
ghost use Rattle.nest_lang.specs.Traces.{cut_of};
ghost use Rattle.nest_lang.specs.Runs.{finish_of_ending};

use crate::by_depth;
use crate::course::Unit;
use crate::machine::Machine;
use crate::nest::run_unit;
use crew::Crew;
use nest_grammar::Version;
use nest_lang::{Ending, State};
use nest_text::NestFile;
use report::{Journey, Line, Options};
use shared_words::SharedWords;
use std::alloc::{AllocError, Global};

/// The journey of a file (docs/DEFINITIONS.md, Journeys): its lines, and the state, the ending and the steps of its run,
/// which is the plain run. Each line can be written (`report::lines_text`), and so can the outcome (`report::outcome_text`). The
/// crew is handed each phase of each launched chunk. The options are in their ranges. It is refused only where there is no
/// memory for it; what was launched by then was handed to the crew.
pub fn journey<C: Crew>(
    alloc: Global,
    file: &NestFile,
    options: &Options,
    crew: &mut C,
) -> Result<Journey, AllocError>
    requires workers_from { 1 ≤ options.now.workers }
    requires workers_to { options.now.workers ≤ 64 }
    requires steps { options.now.steps ≤ 2 ^ 32 }
    requires sample_from { pos 2 ≤ℤ options.now.sample }
    requires sample_to { options.now.sample ≤ℤ pos 64 }
    requires chunk_from { pos 1 ≤ℤ options.now.chunk }
    requires chunk_to { options.now.chunk ≤ℤ pos 1024 }
    ensures journey { IfOk result (λ j. (left : ℕ) × IsJourney options.now file.now j.lines.items (cut_of j.state left j.steps (finish_of_ending j.ending))) }
    ensures standing { IfOk result (λ j. All (CanStand (length file.now.scalars)) j.lines.items) }
    ensures named { IfOk result (λ j. length j.state.scalars ≡ length file.now.scalars) }
    ensures few { IfOk result (λ j. length j.state.scalars ≤ 16) }
    ensures handed { JourneyHanded options.now file.now (C.handed crew.old) (C.handed crew.new) result }
{
    let version = file.file().version;
    let State { memory, scalars } = file.start(alloc)?;
    let (words, main) = SharedWords::new(alloc, memory.as_slice())?;
    let mut machine = Machine::new(&words, main, scalars, options.steps, options.workers);
    let mut lines = Vec::new(alloc);
    let ending = run_nests(
        alloc,
        &mut lines,
        file,
        version,
        options,
        &mut machine,
        crew,
    )?;
    let (state, steps) = machine.finish(alloc)?;
    Ok(Journey {
        lines,
        state,
        ending,
        steps,
    })
}

/// Runs the nests of a file of that version, one after another, up to the first that doesn't end.
fn run_nests<C: Crew>(
    alloc: Global,
    lines: &mut Vec<Line>,
    file: &NestFile,
    version: Version,
    options: &Options,
    machine: &mut Machine<'_>,
    crew: &mut C,
) -> Result<Ending, AllocError>
    requires text { IsOfText file.now }
    requires version { version ≡ file.now.version }
    requires sample_from { pos 2 ≤ℤ options.now.sample }
    requires sample_to { options.now.sample ≤ℤ pos 64 }
    requires chunk_from { pos 1 ≤ℤ options.now.chunk }
    requires chunk_to { options.now.chunk ≤ℤ pos 1024 }
    requires count { length machine.old.moment.store.scalars ≡ length file.now.scalars }
    requires fits { IsOfI64s machine.old.moment.store }
    requires reach { reach_of machine.old + 8 * 131072 ≤ 2 ^ 62 }
    ensures ran { IfOk result (λ ending. RunsNests file.now options.now machine.old lines.old.items (C.handed crew.old) (finish_of_ending ending) machine.new lines.new.items (C.handed crew.new)) }
    ensures broke { OnErr result (NestsBrokeOff file.now options.now machine.old (C.handed crew.old) (C.handed crew.new)) }
{
    'nests: for number in 0..file.nests() {
        let Some(nest) = file.nest(number) else {
            unreachable!()
        };
        push_heading(lines, version, number as u32 + 1)?;
        let unit = Unit {
            file,
            number,
            nest,
            options: *options,
        };
        match run_nest(alloc, lines, &unit, machine, crew)? {
            Ending::Ended => {}
            ending => return Ok(ending),
        }
    }
    Ok(Ending::Ended)
}

/// Tells the number of a nest, in version 2.
fn push_heading(lines: &mut Vec<Line>, version: Version, number: u32) -> Result<(), AllocError>
    ensures { OnOk result (lines.new.items ≡ lines.old.items ++ heading version number) }
{
    match version {
        Version::One => Ok(()),
        Version::Two => {
            lines.push(Line::Nest(number))?;
            Ok(())
        }
    }
}

/// Runs a nest, by the number of its loops.
fn run_nest<C: Crew>(
    alloc: Global,
    lines: &mut Vec<Line>,
    unit: &Unit<'_>,
    machine: &mut Machine<'_>,
    crew: &mut C,
) -> Result<Ending, AllocError>
    requires unit { IsUnit unit.now.file.now unit.now.number unit.now.nest.now unit.now.options }
    requires count { length machine.old.moment.store.scalars ≡ length unit.now.file.now.scalars }
    requires fits { IsOfI64s machine.old.moment.store }
    requires reach { reach_of machine.old + 131072 ≤ 2 ^ 62 }
    ensures ran { IfOk result (λ ending. RunsUnit unit.now.file.now unit.now.number unit.now.options machine.old lines.old.items (C.handed crew.old) (finish_of_ending ending) machine.new lines.new.items (C.handed crew.new)) }
    ensures broke { OnErr result (UnitBrokeOff unit.now.file.now unit.now.number unit.now.options machine.old (C.handed crew.old) (C.handed crew.new)) }
{
    let Some(ending) = by_depth!(
        unit.nest.depth(),
        run_unit(alloc, lines, unit, machine, crew)
    ) else {
        unreachable!()
    };
    ending
}
