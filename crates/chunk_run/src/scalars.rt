//! The scalars that a chunk is expected to begin with, and those that it is expected to leave.

ghost use Rattle.std.specs.Prelude.{◌≡◌, ◌↔◌, ◌<◌, length, IsTrue};
ghost use Rattle.domain.specs.Instances.{opening_at};
ghost use Rattle.follow_chunk.specs.Predicted.{scalars_at};
ghost use Rattle.follow_chunk.specs.Tasks.{task_of, IsSomeTask};
ghost use Rattle.chunk_run.specs.Parts.{ClosingFits};
ghost use Rattle.compare.specs.ChainLaw.{behind};

use domain::Instance;
use follow_chunk::{Task, narrowed, scalars_at};

/// The first block at a turn, with inner counters 0.
fn opening<const D: usize>(task: &Task<'_, D>, turn: i64) -> Instance<D>
    requires { IsSomeTask D (task_of task.now) }
    ensures { result ≡ opening_at task.now.pred.now turn }
{
    let mut at = [0; D];
    at[0] = turn;
    Instance { block: 0, at }
}

/// Whether these are the numbers that are expected.
fn are_same(scalars: &[i64], expected: &[i128]) -> bool
    requires { length scalars.now ≡ length expected.now }
    ensures { IsTrue result ↔ (scalars.now ≡ expected.now) }
{
    for number in 0..scalars.len() {
        if i128::from(scalars[number]) != expected[number] {
            return false;
        }
    }
    true
}

/// Whether these are the scalars that are expected of the chunk's first instance.
pub fn begins<const D: usize>(task: &Task<'_, D>, scalars: &[i64]) -> bool
    requires few { D < 7 }
    requires task { IsSomeTask D (task_of task.now) }
    requires count { length scalars.now ≡ task.now.scalars }
    ensures { IsTrue result ↔ (scalars.now ≡ scalars_at task.now.pred.now (opening_at task.now.pred.now task.now.chunk.first)) }
{
    let first = opening(task, task.chunk.first);
    let expected = scalars_at(task.pred, &first, task.scalars);
    are_same(scalars, expected.as_slice())
}

/// Sets the scalars to those that are expected after the chunk's last instance, which are i64s.
pub fn set_closing<const D: usize>(task: &Task<'_, D>, scalars: &mut [i64])
    requires few { D < 7 }
    requires task { IsSomeTask D (task_of task.now) }
    requires count { length scalars.old ≡ task.now.scalars }
    requires fits { ClosingFits task.now.pred.now task.now.chunk }
    ensures { scalars.new ≡ scalars_at task.now.pred.now (behind task.now.pred.now task.now.chunk) }
{
    let behind = opening(task, task.chunk.first + task.chunk.turns);
    let expected = scalars_at(task.pred, &behind, task.scalars);
    let closing = narrowed(expected.as_slice());
    scalars.copy_from_slice(closing.as_slice());
}
