//! What is shown of a nest.

ghost use Rattle.std.specs.Prelude.{◌≡◌, ◌<◌, ◌≤◌, length, pos};
ghost use Rattle.nest_lang.specs.Rules.{NestKeeps};
ghost use Rattle.follow_chunk.specs.Tasks.{task_of, IsTask};

use crate::answer::Asked;
use crate::instances::{behind, predicted};
use crate::profiled::profile_turns;
use crate::runs::{compared, followed};
use crate::tasks::Foretold;
use domain::Instance;
use follow::How;
use follow_chunk::{Deviation, Followed, Task};
use nest_lang::{Nest, State};
use nest_text::NestFile;
use profile::fit;
use std::alloc::{AllocError, Global};

/// What is shown of a nest of D loops of a file.
pub fn shown<const D: usize>(
    alloc: Global,
    file: &NestFile,
    nest: &Nest,
    asked: Asked,
) -> Result<String, AllocError>
    requires few { D < 7 }
    requires depth { length nest.now.loops ≡ D }
    requires keeps { NestKeeps (length file.now.scalars) nest.now.loops }
{
    let mut state = file.start(alloc)?;
    let count = file.file().scalars.len();
    if count > 16 {
        return String::from_str(alloc, "many scalars");
    }
    let State { memory, scalars } = &mut state;
    let Some(profiled) = profile_turns(alloc, nest, memory, scalars, asked.sample)? else {
        return String::from_str(alloc, "no profile");
    };
    let Ok(pred) = fit::<D>(alloc, nest, count as u8, &profiled.samples) else {
        return String::from_str(alloc, "no fit");
    };
    let foretold = Foretold {
        nest,
        scalars: count as u8,
        pred: &pred,
        outer: profiled.outer,
    };
    match foretold.task(asked.turns, state.memory.len()) {
        Some(task) => task_text(alloc, &task, &mut state, asked.left),
        None => String::from_str(alloc, "held"),
    }
}

/// What is shown of a chunk, from a state and with so many steps left.
fn task_text<const D: usize>(
    alloc: Global,
    task: &Task<'_, D>,
    state: &mut State,
    left: u32,
) -> Result<String, AllocError>
    requires few { D < 7 }
    requires task { IsTask D (task_of task.now) (pos (length state.old.memory)) }
    requires scalars { length state.old.scalars ≤ 16 }
{
    let list = predicted(alloc, task)?;
    let end = behind(task);
    let mut memory = state.memory.clone()?;
    let followed = followed(task, list.as_slice(), memory.as_mut_slice());
    let State { memory, scalars } = state;
    let compared = compared(*task, memory, scalars, left);
    let agree = agree(&followed, &compared, list.as_slice(), &end);
    format!(in alloc; "followed {followed:?}\ncompared {compared:?}\nagree {agree}\n")
}

/// Whether following and comparing tell the same. A scalar differs as an instance ends where it is followed, and as its
/// successor begins where it is compared: the next one of the list, or behind the last one of it the end.
fn agree<const D: usize>(
    followed: &Followed<D>,
    compared: &Option<Deviation<D>>,
    list: &[Instance<D>],
    end: &Instance<D>,
) -> bool {
    match (followed, compared) {
        (Followed::Same { .. }, None) => true,
        (Followed::Differs(first), Some(second)) => {
            let is_there = match first.how {
                How::Scalar(..) => is_next(list, end, &first.at, &second.at),
                _ => first.at == second.at,
            };
            is_there && first.how == second.how
        }
        _ => false,
    }
}

/// Whether the first instance stands in the list, and the second one behind it.
fn is_next<const D: usize>(
    list: &[Instance<D>],
    end: &Instance<D>,
    first: &Instance<D>,
    second: &Instance<D>,
) -> bool {
    let mut is_here = false;
    for inst in list {
        if is_here {
            return inst == second;
        }
        is_here = inst == first;
    }
    is_here && end == second
}
