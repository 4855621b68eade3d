//! A chunk that is followed, and one that is run in original order.

ghost use Rattle.std.specs.Prelude.{◌≡◌, ◌+◌, ◌<◌, ◌≤◌, ◌^◌, ◌≤ℤ◌, length, pos, false, true};
ghost use Rattle.std.specs.List.{AllByRecursion};
ghost use Rattle.nest_lang.specs.Rules.{loops_keep};
ghost use Rattle.nest_lang.specs.Turns.{IsPositionIn};
ghost use Rattle.domain.specs.Instances.{Predicted};
ghost use Rattle.follow_chunk.specs.Tasks.{task_of, IsTask};

use block_exec::{Halt, MemoryPort, Port, Run, Watch};
use compare::Compare;
use domain::Instance;
use follow_chunk::{Deviation, Followed, Task, follow_list};
use nest_lang::{Budget, Nest, Outer, Turned};
use plain_interp::run_turns;

/// Follows predicted instances of a chunk, over these words.
pub fn followed<const D: usize>(
    task: &Task<'_, D>,
    list: &[Instance<D>],
    memory: &mut [i64],
) -> Followed<D>
    requires few { D < 7 }
    requires task { IsTask D (task_of task.now) (pos (length memory.old)) }
    requires short { length list.now ≤ 65536 }
    requires predicted { AllByRecursion (Predicted task.now.pred.now task.now.chunk) list.now }
{
    let mut port = MemoryPort::new(memory);
    follow_list(task, list, &mut port)
}

/// Where a run stands between two turns.
#[derive(Clone, Copy)]
struct Stand {
    outer: Outer,
    steps: Budget,
}

/// Runs so many turns of a nest in original order under a watch, which is given back.
fn watched<P: Port, W: Watch>(
    port: &mut P,
    scalars: &mut [i64],
    stand: &mut Stand,
    nest: &Nest,
    turns: u64,
    mut watch: W,
) -> (Turned, W)
    requires rules { loops_keep nest.now.loops ≡ true }
    requires scalars { length scalars.old ≤ 16 }
    requires position { IsPositionIn nest.now.loops stand.old.outer }
    requires from { pos 0 ≤ℤ stand.old.outer.next }
    requires soon { stand.old.outer.next ≤ℤ pos (2 ^ 32) }
    requires steps { stand.old.steps.left + stand.old.steps.used ≤ 2 ^ 32 }
    requires plain { (P.expects port.old).verifies ≡ false }
{
    let mut run = Run {
        scalars,
        locals: [0; 16],
        port,
        steps: stand.steps,
        watch: &mut watch,
        halt: Halt::NONE,
    };
    let mut outer = stand.outer;
    let turned = run_turns(&mut run, nest, &mut outer, turns);
    stand.steps = run.steps;
    stand.outer = outer;
    (turned, watch)
}

/// Runs a chunk in original order within so many steps, and gives its first deviation.
pub fn compared<const D: usize>(
    task: Task<'_, D>,
    memory: &mut [i64],
    scalars: &mut [i64],
    left: u32,
) -> Option<Deviation<D>>
    requires task { IsTask D (task_of task) (pos (length memory.old)) }
    requires scalars { length scalars.old ≤ 16 }
{
    let mut stand = Stand {
        outer: task.outer,
        steps: Budget {
            left: u64::from(left),
            used: 0,
        },
    };
    let turns = task.chunk.turns as u64;
    let watch = Compare::new(task);
    let mut port = MemoryPort::new(memory);
    let (turned, watch) = watched(&mut port, scalars, &mut stand, task.nest, turns, watch);
    watch.close(&turned, scalars)
}
