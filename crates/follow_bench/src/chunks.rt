//! A chunk of a nest, run plainly or followed as often as asked.

ghost use Rattle.std.specs.Prelude.{◌≡◌, ◌<◌, ◌≤◌, length, pos};
ghost use Rattle.std.specs.List.{AllByRecursion};
ghost use Rattle.nest_lang.specs.Rules.{NestKeeps};
ghost use Rattle.domain.specs.Instances.{Predicted};
ghost use Rattle.follow_chunk.specs.Tasks.{task_of, IsTask};

use crate::instances::predicted;
use crate::plain::chunk_steps;
use crate::profiled::profile_turns;
use crate::tasks::Foretold;
use block_exec::MemoryPort;
use domain::Instance;
use follow_chunk::{Followed, Task, follow_list};
use nest_lang::{Nest, State};
use nest_text::{NestFile, read_nest};
use profile::fit;
use std::alloc::{AllocError, Global};

/// How many turns are profiled, and how many the chunk behind them has.
const SAMPLE: u32 = 4;

const TURNS: u32 = 8;

/// What is done with the chunk.
#[derive(Clone, Copy)]
pub enum Way {
    Plainly,
    Followed,
}

/// The steps of the chunk behind the first turns of the nest of a text, so often, or why there are none.
pub fn steps_text(alloc: Global, text: &str, way: Way, times: u32) -> Result<String, AllocError> {
    let Ok(file) = read_nest(alloc, text.as_bytes()) else {
        return String::from_str(alloc, "refused");
    };
    let Some(nest) = file.nest(0) else {
        return String::from_str(alloc, "no nest");
    };
    match nest.loops.len() {
        1 => chunk_text::<1>(alloc, &file, nest, way, times),
        2 => chunk_text::<2>(alloc, &file, nest, way, times),
        _ => String::from_str(alloc, "deeper"),
    }
}

/// The same of a nest of D loops.
fn chunk_text<const D: usize>(
    alloc: Global,
    file: &NestFile,
    nest: &Nest,
    way: Way,
    times: u32,
) -> Result<String, AllocError>
    requires few { D < 7 }
    requires depth { length nest.now.loops ≡ D }
    requires keeps { NestKeeps (length file.now.scalars) nest.now.loops }
{
    let mut state = file.start(alloc)?;
    let count = file.file().scalars.len();
    if count > 16 {
        return String::from_str(alloc, "many scalars");
    }
    let State { memory, scalars } = &mut state;
    let Some(profiled) = profile_turns(alloc, nest, memory, scalars, SAMPLE)? else {
        return String::from_str(alloc, "no profile");
    };
    let Ok(pred) = fit::<D>(alloc, nest, count as u8, &profiled.samples) else {
        return String::from_str(alloc, "no fit");
    };
    let foretold = Foretold {
        nest,
        scalars: count as u8,
        pred: &pred,
        outer: profiled.outer,
    };
    match foretold.task(TURNS, state.memory.len()) {
        Some(task) => task_text(alloc, &task, &mut state, way, times),
        None => String::from_str(alloc, "held"),
    }
}

/// The same of a launched chunk.
fn task_text<const D: usize>(
    alloc: Global,
    task: &Task<'_, D>,
    state: &mut State,
    way: Way,
    times: u32,
) -> Result<String, AllocError>
    requires few { D < 7 }
    requires task { IsTask D (task_of task.now) (pos (length state.old.memory)) }
{
    let list = predicted(alloc, task)?;
    let State { memory, scalars } = state;
    let steps = match way {
        Way::Plainly => chunk_steps(task, memory, scalars, times),
        Way::Followed => match followed(task, list.as_slice(), memory, times) {
            Followed::Same { steps } => steps,
            Followed::Differs(deviation) => return format!(in alloc; "{deviation:?}"),
        },
    };
    format!(in alloc; "{steps}")
}

/// The steps of so many times the instances of a list, or how one differs.
fn followed<const D: usize>(
    task: &Task<'_, D>,
    list: &[Instance<D>],
    memory: &mut [i64],
    times: u32,
) -> Followed<D>
    requires few { D < 7 }
    requires task { IsTask D (task_of task.now) (pos (length memory.old)) }
    requires short { length list.now ≤ 65536 }
    requires predicted { AllByRecursion (Predicted task.now.pred.now task.now.chunk) list.now }
{
    let mut steps: u64 = 0;
    for _ in 0..times {
        match followed_once(task, list, memory) {
            Followed::Same { steps: more } => steps = steps.wrapping_add(more),
            Followed::Differs(deviation) => return Followed::Differs(deviation),
        }
    }
    Followed::Same { steps }
}

/// Once.
fn followed_once<const D: usize>(
    task: &Task<'_, D>,
    list: &[Instance<D>],
    memory: &mut [i64],
) -> Followed<D>
    requires few { D < 7 }
    requires task { IsTask D (task_of task.now) (pos (length memory.old)) }
    requires short { length list.now ≤ 65536 }
    requires predicted { AllByRecursion (Predicted task.now.pred.now task.now.chunk) list.now }
{
    let mut port = MemoryPort::new(memory);
    follow_list(task, list, &mut port)
}
