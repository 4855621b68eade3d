//! A chunk, run by the plain interpreter.

ghost use Rattle.std.specs.Prelude.{◌≡◌, ◌<◌, ◌≤◌, ◌≤ℤ◌, ◌^◌, length, pos, true};
ghost use Rattle.nest_lang.specs.Rules.{loops_keep};
ghost use Rattle.nest_lang.specs.Turns.{IsPositionIn};
ghost use Rattle.follow_chunk.specs.Tasks.{task_of, IsSomeTask};

use block_exec::{Blind, Halt, MemoryPort, Run};
use follow_chunk::Task;
use nest_lang::{Budget, Nest, Outer, Turned};
use plain_interp::run_turns;

/// The steps of a chunk, so many times, each time from these scalars.
pub fn chunk_steps<const D: usize>(
    task: &Task<'_, D>,
    memory: &mut [i64],
    scalars: &[i64],
    times: u32,
) -> u64
    requires { IsSomeTask D (task_of task.now) }
{
    let start = sixteen(scalars);
    let outer = task.outer;
    let turns = task.chunk.turns as u64;
    let mut steps: u64 = 0;
    for _ in 0..times {
        steps = steps.wrapping_add(turns_once(task.nest, outer, turns, memory, &start));
    }
    steps
}

/// The first scalars, and 0 behind them.
fn sixteen(scalars: &[i64]) -> [i64; 16] {
    let mut all = [0; 16];
    for (to, from) in all.iter_mut().zip(scalars) {
        *to = *from;
    }
    all
}

/// The steps of some turns of a nest, or 0 where they don't go through.
fn turns_once(nest: &Nest, outer: Outer, turns: u64, memory: &mut [i64], start: &[i64; 16]) -> u64
    requires rules { loops_keep nest.now.loops ≡ true }
    requires position { IsPositionIn nest.now.loops outer }
    requires from { pos 0 ≤ℤ outer.next }
    requires soon { outer.next ≤ℤ pos (2 ^ 32) }
{
    let mut scalars = *start;
    let mut port = MemoryPort::new(memory);
    let mut watch = Blind;
    let mut run = Run {
        scalars: &mut scalars,
        locals: [0; 16],
        port: &mut port,
        steps: Budget {
            left: 1 << 31,
            used: 0,
        },
        watch: &mut watch,
        halt: Halt::NONE,
    };
    let mut outer = outer;
    match run_turns(&mut run, nest, &mut outer, turns) {
        Turned::Went => run.steps.used,
        _ => 0,
    }
}
