//! The phases of a chunk, each from its post to its settle.

ghost use Rattle.std.specs.Prelude.{◌≡◌, ◌+◌, ◌-◌, ◌^◌, ◌<◌, ◌≤◌, false, length, vec_len, vec_capacity};
ghost use Rattle.shared_words.specs.Memories.{signed};
ghost use Rattle.follow_chunk.specs.Tasks.{task_of};
ghost use Rattle.phase_run.specs.Phases.{next_view};
ghost use Rattle.chunk_run.specs.Parts.{HasSteps, ChangesChunk, phase_at};
ghost use Rattle.chunk_run.specs.Ready.{IsReady};
ghost use Rattle.chunk_run.specs.Groups.{GainsPhase};

use crate::launch::Launch;
use crate::walks::PhaseWalks;
use crew::Crew;
use phase_run::{Posting, run_phase};
use shared_words::MainSeat;
use skeletons::{Skeleton, TileWalk};
use tiles::ChunkPlan;
use verified_turns::Worker;

/// A launched chunk with all that its phases need: the skeleton that their tiles are walked by, and their plan.
#[derive(Clone, Copy)]
pub struct Prepared<'a, const D: usize> {
    pub launch: Launch<'a, D>,
    pub skeleton: &'a Skeleton<'a, D>,
    pub plan: &'a ChunkPlan<D>,
}

/// Runs the phase of this number by all workers, from its post to its settle. It gives the steps of its instances; None
/// where one of them differs. No plan is posted, and there is room for the workers and for an entry. Takes no memory.
pub fn run_number<'a, C: Crew, const D: usize>(
    chunk: &'a Prepared<'a, D>,
    number: usize,
    main: &mut MainSeat,
    workers: &mut Vec<Worker<'a, TileWalk<'a, D>, D>>,
    crew: &mut C,
) -> Option<u64>
    requires ready { let c = chunk.now in let k = c.launch.task.now in IsReady D (length main.old.view.base) c.launch.workers (task_of k) c.skeleton.now c.plan.now }
    requires number { number < length chunk.now.plan.now.phases }
    requires table { main.old.table ≡ chunk.now.launch.words.now }
    requires unposted { main.old.view.posted ≡ false }
    requires epoch { main.old.view.epoch < 2 ^ 63 - 1 }
    requires empty { vec_len workers.old ≡ 0 }
    requires room { chunk.now.launch.workers ≤ vec_capacity workers.old }
    requires spare { 0 < C.spare crew.old }
    ensures table { main.new.table ≡ main.old.table }
    ensures view { main.new.view ≡ next_view main.old.view main.new.view.base }
    ensures stored { main.old.view.stored ≤ main.old.view.epoch }
    ensures followed { let k = chunk.now.launch.task.now in HasSteps chunk.now.skeleton.now k.nest.now.loops k.outer (phase_at chunk.now.plan.now.phases number).cells (signed main.old.view.base) result (signed main.new.view.base) }
    ensures changes { let k = chunk.now.launch.task.now in ChangesChunk k.pred.now k.chunk (signed main.old.view.base) (signed main.new.view.base) }
    ensures handed { GainsPhase chunk.now.launch.task.now.chunk.first chunk.now.launch.workers number (length (phase_at chunk.now.plan.now.phases number).cells) result (C.handed crew.old) (C.handed crew.new) }
    ensures spare { C.spare crew.new + 1 ≡ C.spare crew.old }
    ensures empty { vec_len workers.new ≡ 0 }
    ensures room { vec_capacity workers.old ≤ vec_capacity workers.new }
{
    let launch = chunk.launch;
    let plan = chunk.plan;
    let phase = &plan.phases[number];
    let walks = PhaseWalks::new(chunk.skeleton, phase.cells.as_slice());
    let posting = Posting::new(
        launch.words,
        &walks,
        &phase.plan,
        number as u32,
        launch.workers,
    );
    run_phase(launch.task, &posting, main, workers, crew)
}
