//! A watch that keeps the first deviation of a plain run.

ghost use Rattle.std.specs.Prelude.{◌≡◌, ◌≤◌, length, option_map};
ghost use Rattle.nest_lang.specs.Turns.{finish_of_turned};
ghost use Rattle.follow_chunk.specs.Tasks.{task_of};
ghost use Rattle.compare.specs.ChainLaw.{behind};
ghost use Rattle.compare.specs.Chunks.{IsWatchable};
ghost use Rattle.compare.specs.Comparisons.{Comparison, fresh, found_at, found_of, MayCompare};
ghost use Rattle.compare.specs.Compared.{IsFirstDeviation, IsFirstKept};
ghost use Rattle.compare.specs.Differences.{scalars_difference};

use crate::differences::{difference, scalars_difference};
use crate::occurrence::{Occurrence, opening};
use block_exec::Watch;
use domain::Instance;
use follow::How;
use follow_chunk::{Deviation, Task};
use nest_lang::{BlockRef, Seen, Turned};
use std::marker::Model;

/// A watch of the plain run of a chunk, which keeps the first thing that isn't as it is predicted. Contracts see it as
/// a comparison: what is predicted of which chunk, the instance that was shown last, and what was found first.
#[derive(Drop)]
pub struct Compare<'a, const D: usize> {
    task: Task<'a, D>,
    at: Instance<D>,
    first: Option<Deviation<D>>,
}

impl<'a, const D: usize> Model for Compare<'a, D> {
    ghost Value = { Comparison };

    ghost view = { λ c. record { table = c.task.pred.now; chunk = c.task.chunk; at = c.at; first = option_map found_of c.first } };

    ghost invariant = { λ c. IsWatchable D (task_of c.task) };
}

impl<'a, const D: usize> Compare<'a, D> {
    /// A watch of the task's chunk that was shown nothing.
    pub fn new(task: Task<'a, D>) -> Compare<'a, D>
        requires { IsWatchable D (task_of task) }
        ensures { result ≡ fresh task.entry.pred.now task.entry.chunk }
    {
        let at = opening(task.pred, task.chunk.first);
        Compare {
            task,
            at,
            first: None,
        }
    }

    /// The deviation of the chunk's run, which ended so with these scalars; None exactly where the chunk follows its
    /// prediction. What this was shown, `turned` and the scalars are what one call of `run_turns` gave, of the task's
    /// nest, from the task's position, for the chunk's turns and with this watch, new at its start.
    pub fn close(self, turned: &Turned, scalars: &[i64]) -> Option<Deviation<D>>
        requires { length scalars.now ≤ 256 }
        ensures first { IsFirstDeviation {D = D} self.entry (finish_of_turned turned.now) scalars.now result }
        ensures kept { IsFirstKept {D = D} self.entry (finish_of_turned turned.now) scalars.now result }
    {
        let Compare { task, at, first } = self;
        if first.is_some() {
            return first;
        }
        match turned {
            Turned::Went => closing(&task, scalars),
            Turned::Ended => Some(Deviation {
                at,
                how: How::Ended,
            }),
            Turned::Trapped(trap) => Some(Deviation {
                at,
                how: How::Trap(*trap),
            }),
            Turned::Limited => Some(Deviation {
                at,
                how: How::Limit,
            }),
        }
    }
}

impl<const D: usize> Watch for Compare<'_, D> {
    ghost may = { MayCompare };

    fn see(&mut self, block: BlockRef, counters: &[i64], what: Seen, value: i128) {
        if self.first.is_some() {
            return;
        }
        let occurrence = Occurrence { block, counters };
        let at = occurrence.instance(&self.task);
        let how = difference(&self.task, &occurrence, &at, what, value);
        self.at = at;
        self.first = deviation(at, how);
    }
}

/// What was found at an instance.
fn deviation<const D: usize>(at: Instance<D>, how: Option<How>) -> Option<Deviation<D>>
    ensures { option_map found_of result ≡ option_map (found_at at.entry) how }
{
    Some(Deviation { at, how: how? })
}

/// The first closing scalar that differs from what the instance behind the chunk is expected to begin with.
fn closing<const D: usize>(task: &Task<'_, D>, scalars: &[i64]) -> Option<Deviation<D>>
    requires task { IsWatchable D (task_of task.now) }
    requires count { length scalars.now ≤ 256 }
    ensures { let last = behind task.now.pred.now task.now.chunk in option_map found_of result ≡ option_map (found_at last) (scalars_difference task.now.pred.now last 0 scalars.now) }
{
    let at = opening(task.pred, task.chunk.first + task.chunk.turns);
    deviation(at, scalars_difference(task.pred, &at, scalars))
}
