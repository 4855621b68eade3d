//! The predicted instances of a chunk.

ghost use Rattle.std.specs.Prelude.{◌≡◌, ◌<◌, ◌≤◌, ◌≤ℤ◌, ◌+ℤ◌, ◌^◌, pos, int_lt, IfOk, length};
ghost use Rattle.std.specs.List.{AllByRecursion};
ghost use Rattle.domain.specs.Instances.{Predicted, counter, opening_at};
ghost use Rattle.follow_chunk.specs.Tasks.{task_of, IsSomeTask};

use domain::{Chunk, Instance, successor};
use follow_chunk::Task;
use std::alloc::{AllocError, Global};

/// The first block at a turn, with inner counters 0.
fn opening<const D: usize>(task: &Task<'_, D>, turn: i64) -> Instance<D>
    requires { IsSomeTask D (task_of task.now) }
    ensures { result ≡ opening_at task.now.pred.now turn }
{
    let _pred = task.pred;
    let mut at = [0; D];
    at[0] = turn;
    Instance { block: 0, at }
}

/// Whether the turn of an instance is one of the chunk's.
fn holds<const D: usize>(chunk: Chunk, inst: &Instance<D>) -> bool
    requires some { 0 < D }
    requires from { pos 0 ≤ℤ chunk.first }
    requires to { chunk.first ≤ℤ pos (2 ^ 32) }
    requires turns { pos 1 ≤ℤ chunk.turns }
    requires most { chunk.turns ≤ℤ pos 1024 }
    ensures { result ≡ int_lt (counter inst.now.at 0) (chunk.first +ℤ chunk.turns) }
{
    inst.at[0] < chunk.first + chunk.turns
}

/// The predicted instances of a chunk in original order, at most 65,536.
pub fn predicted<const D: usize>(
    alloc: Global,
    task: &Task<'_, D>,
) -> Result<Vec<Instance<D>>, AllocError>
    requires few { D < 7 }
    requires task { IsSomeTask D (task_of task.now) }
    ensures predicted { IfOk result (λ list. AllByRecursion (Predicted task.now.pred.now task.now.chunk) list.items) }
    ensures short { IfOk result (λ list. length list.items ≤ 65536) }
{
    let mut list = Vec::new(alloc);
    let mut at = opening(task, task.chunk.first);
    for _done in 0..65_536_u32 {
        if !holds(task.chunk, &at) {
            return Ok(list);
        }
        list.push(at)?;
        at = successor(task.pred, &at);
    }
    Ok(list)
}
