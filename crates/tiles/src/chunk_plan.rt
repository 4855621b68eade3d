//! The plan of a chunk.

ghost use Rattle.std.specs.Prelude.{◌≡◌, ◌<◌, ◌≤◌, ◌^◌, IfOk};
ghost use Rattle.skeletons.specs.Runs.{Run as PlainRun};
ghost use Rattle.tiles.specs.Counts.{count_of};
ghost use Rattle.tiles.specs.Plans.{IsPlannable, IsPlanOf};

use crate::group::{Group, add};
use crate::phase::Phase;
use crate::stripe::Stripe;
use crate::touching::tile_of_runs;
use follow_chunk::Task;
use skeletons::{Run, Skeleton};
use std::alloc::{AllocError, Global};
use std::marker::Model;
use transform::Schedule;

/// The plan of a chunk: its phases in the order in which they run, the numbers of its instances and of its tiles, and the
/// stripes of what is to be kept before the first phase runs.
#[derive(Drop)]
pub struct ChunkPlan<const D: usize> {
    pub phases: Vec<Phase<D>>,
    pub instances: u64,
    pub tiles: u64,
    pub stripes: Vec<Stripe>,
}

impl<const D: usize> Model for ChunkPlan<D> {
    ghost use Rattle.tiles.specs.Plans.{ChunkPlan as Plain};

    ghost Value = { Plain };

    ghost view = { λ p. record { phases = p.phases.items; instances = p.instances; tiles = p.tiles; stripes = p.stripes.items } };
}

/// How many instances some runs have.
fn count<const D: usize>(runs: &[Run<D>]) -> u64
    requires { count_of runs.now < 2 ^ 64 }
    ensures { result ≡ count_of runs.now }
{
    let mut count = 0;
    for run in runs {
        count += run.count;
    }
    count
}

/// The phases that were gathered.
fn into_phases<const D: usize>(
    alloc: Global,
    groups: Vec<Group<D>>,
) -> Result<Vec<Phase<D>>, AllocError>
    ensures { IfOk result (λ phases. phases.items ≡ groups.entry.items) }
{
    let mut phases = Vec::new(alloc);
    for group in groups {
        phases.push(group.into_phase())?;
    }
    Ok(phases)
}

/// The plan of the task's chunk in the order of a schedule: its non-empty phases in the order of their keys, the non-empty
/// tiles of each in theirs, and one stripe for each run of each cell, each store access of its block that has a form and
/// each offset of its tube. The chunk is launched over so many words, and the schedule is legal for some number of turns
/// from the chunk's to 1,024. D is from 1 to 6.
pub fn plan<const D: usize>(
    alloc: Global,
    task: &Task<'_, D>,
    schedule: &Schedule<D>,
    words: u64,
) -> Result<ChunkPlan<D>, AllocError>
    requires some { 1 ≤ D }
    requires few { D < 7 }
    requires plannable { IsPlannable task.now.pred.now schedule.now task.now.chunk words }
    ensures { IfOk result (λ plan. IsPlanOf (record { table = task.now.pred.now; schedule = schedule.now; chunk = task.now.chunk }) words plan) }
{
    let _columns = schedule.columns();
    let skeleton = Skeleton::new(alloc, task.pred, schedule, task.chunk)?;
    let cells = skeleton.cells(alloc)?;
    let mut groups = Vec::new(alloc);
    let mut stripes = Vec::new(alloc);
    let mut instances = 0;
    for cell in &cells {
        let runs = skeleton.runs(alloc, cell)?;
        let tile = tile_of_runs(alloc, task.pred, &runs, words, &mut stripes)?;
        add(alloc, &mut groups, *cell, tile)?;
        instances += count(&runs);
    }
    Ok(ChunkPlan {
        phases: into_phases(alloc, groups)?,
        instances,
        tiles: cells.len() as u64,
        stripes,
    })
}
