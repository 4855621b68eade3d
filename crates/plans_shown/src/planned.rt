//! Plans, and the walks over their tiles.

ghost use Rattle.std.specs.Prelude.{◌<◌, ◌≤◌, ◌^◌, length};
ghost use Rattle.skeletons.specs.Cells.{IsLaunch};
ghost use Rattle.tiles.specs.Plans.{IsPlannable};

use crate::asked::{Asked, Word};
use crate::texts::{numbers_text, plan_text};
use follow_chunk::Task;
use skeletons::{Skeleton, TileWalk, Walk};
use std::alloc::{AllocError, Global};
use tiles::{ChunkPlan, plan};
use transform::Schedule;

/// What is asked of a chunk over so many words, in the order of a schedule.
pub fn planned_text<const D: usize>(
    alloc: Global,
    asked: Asked,
    task: &Task<'_, D>,
    schedule: &Schedule<D>,
    words: u64,
) -> Result<String, AllocError>
    requires depth { 1 ≤ D }
    requires few { D < 7 }
    requires plannable { IsPlannable task.now.pred.now schedule.now task.now.chunk words }
{
    match asked.word {
        Word::Plan => numbers_text(alloc, &planned(alloc, task, schedule, words, asked.times)?),
        Word::Show => plan_text(alloc, &planned(alloc, task, schedule, words, asked.times)?),
        Word::Walk => walk_text(alloc, task, schedule, words, asked.times),
    }
}

/// The plan of a chunk, which is made so many times, and at least once.
fn planned<const D: usize>(
    alloc: Global,
    task: &Task<'_, D>,
    schedule: &Schedule<D>,
    words: u64,
    times: u32,
) -> Result<ChunkPlan<D>, AllocError>
    requires depth { 1 ≤ D }
    requires few { D < 7 }
    requires plannable { IsPlannable task.now.pred.now schedule.now task.now.chunk words }
{
    for _again in 1..times {
        plan(alloc, task, schedule, words)?;
    }
    plan(alloc, task, schedule, words)
}

/// How many instances the walks over the tiles of a chunk give, each time of so many.
fn walk_text<const D: usize>(
    alloc: Global,
    task: &Task<'_, D>,
    schedule: &Schedule<D>,
    words: u64,
    times: u32,
) -> Result<String, AllocError>
    requires depth { 1 ≤ D }
    requires few { D < 7 }
    requires plannable { IsPlannable task.now.pred.now schedule.now task.now.chunk words }
{
    let skeleton = Skeleton::new(alloc, task.pred, schedule, task.chunk)?;
    let cells = skeleton.cells(alloc)?;
    if cells.len() > 65_536 {
        return String::from_str(alloc, "too many tiles");
    }
    let mut walk = TileWalk::new(&skeleton, &cells);
    let mut instances = 0;
    for _again in 0..times {
        instances = walked(&mut walk);
    }
    format!(in alloc; "walked {instances}")
}

/// How many instances the walk gives over all tiles.
fn walked<const D: usize>(walk: &mut TileWalk<'_, D>) -> u64 {
    let mut count: u64 = 0;
    for tile in 0..walk.tiles() {
        walk.enter(tile);
        'instances: while let Some(_) = walk.next() {
            count = count.saturating_add(1);
        }
    }
    count
}
