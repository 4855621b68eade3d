//! Occurrences of blocks as instances of a table.

ghost use Rattle.std.specs.Prelude.{◌≡◌, ◌<◌, ◌≤◌, ◌-◌, pos, slice_index_or};
ghost use Rattle.nest_lang.specs.Traces as traces;
ghost use Rattle.domain.specs.Tables.{IsTable, depth, trip};
ghost use Rattle.domain.specs.Instances.{opening_at};
ghost use Rattle.follow.specs.Forecasts.{expects_turn};
ghost use Rattle.follow_chunk.specs.Predicted.{padded_to, instance_of, forecast_of};
ghost use Rattle.follow_chunk.specs.Tasks.{task_of};
ghost use Rattle.compare.specs.Chunks.{IsWatchable};
ghost use Rattle.compare.specs.Occurrences.{occurrence_at};

use domain::{Instance, Prediction, What, expected};
use follow_chunk::Task;
use nest_lang::{BlockRef, Part};

/// An occurrence of a block: the block, and the turn numbers of the loops around it.
#[derive(Clone, Copy)]
pub(crate) struct Occurrence<'s> {
    pub block: BlockRef,
    pub counters: &'s [i64],
}

/// The first block at a turn, with inner counters 0.
pub(crate) fn opening<const D: usize>(pred: &Prediction<D>, turn: i64) -> Instance<D>
    requires { IsTable D pred.now }
    ensures { result ≡ opening_at pred.now turn }
{
    let _pred = pred;
    let mut at = [0; D];
    at[0] = turn;
    Instance { block: 0, at }
}

/// The number at a place, and 0 past the last one.
fn number_at(numbers: &[i64], place: usize) -> i64
    ensures { result ≡ slice_index_or numbers.now place (pos 0) }
{
    numbers.get(place).copied().unwrap_or(0)
}

/// The first numbers, and zeros after them where there are fewer.
fn padded<const D: usize>(counters: &[i64]) -> [i64; D]
    requires { D < 7 }
    ensures { result ≡ padded_to D counters.now }
{
    let mut at = [0; D];
    for place in 0..D {
        at[place] = number_at(counters, place);
    }
    at
}

/// The rank of a block, and past the last one where the nest hasn't got it.
fn rank<const D: usize>(task: &Task<'_, D>, block: BlockRef) -> u8
    requires { IsWatchable D (task_of task.now) }
    ensures { (x : traces.Occurrence) → x.block ≡ block → result ≡ (instance_of task.now.pred.now x).block }
{
    match task.nest.rank(block) {
        Some(rank) => rank,
        None => task.nest.blocks().len() as u8,
    }
}

impl Occurrence<'_> {
    /// The instance that it is.
    pub(crate) fn instance<const D: usize>(&self, task: &Task<'_, D>) -> Instance<D>
        requires { IsWatchable D (task_of task.now) }
        ensures { result ≡ instance_of task.now.pred.now (occurrence_at self.now) }
    {
        Instance {
            block: rank(task, self.block),
            at: padded(self.counters),
        }
    }

    /// The expected trip of the loop with this head, of which these are the turn numbers around it.
    pub(crate) fn trip<const D: usize>(&self, task: &Task<'_, D>) -> i128
        requires { IsWatchable D (task_of task.now) }
        ensures { 2 ≤ self.now.block.level → result ≡ (forecast_of task.now.pred.now).trip self.now.block self.now.counters.now }
    {
        let loops = self.block.level.saturating_sub(1) as usize;
        let head = Occurrence {
            block: BlockRef {
                part: Part::Head,
                level: self.block.level,
            },
            counters: &self.counters[..loops.min(self.counters.len())],
        };
        expected(task.pred, &head.instance(task), What::Trip).unwrap_or(0)
    }

    /// Whether the condition of a `while` is expected to hold.
    pub(crate) fn expects_turn<const D: usize>(&self, task: &Task<'_, D>) -> bool
        requires { IsWatchable D (task_of task.now) }
        ensures { result ≡ expects_turn (forecast_of task.now.pred.now) (occurrence_at self.now) }
    {
        if self.block.level <= 1 {
            return true;
        }
        let around = self.counters.len().saturating_sub(1);
        let turn = number_at(self.counters, around);
        let outer = Occurrence {
            block: self.block,
            counters: &self.counters[..around],
        };
        i128::from(turn) < outer.trip(task)
    }
}
