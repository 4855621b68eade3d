//! Two workers of one phase, over real seats.
ghost use Rattle.std.specs.Prelude.{◌≡◌, ◌+◌, ◌≤◌, ◌<◌, true, false, [], length, pos, IfOk, vec_len, vec_capacity};
ghost use Rattle.core_steps.specs.Numbers.{has};
ghost use Rattle.core_steps.specs.Views.{lending_view};
ghost use Rattle.domain.specs.Examples.{row};
ghost use Rattle.follow_chunk.specs.Laws.{one_row};
ghost use Rattle.follow_chunk.specs.Tasks.{task_of, IsTask};
ghost use Rattle.crew_shown.specs.Starts.{IsStart};

use crate::counts::Counted;
use crate::tiles::{Flag, Tiles};
use crew::Crew;
use domain::Prediction;
use follow_chunk::Task;
use nest_lang::Nest;
use sample_tasks::{nest, prediction, task};
use shared_words::{MainSeat, SharedWords};
use std::alloc::{AllocError, Global};
use verified_turns::Worker;

/// What the workers refer to: the nest, what is predicted of it, and the words.
#[derive(Drop)]
struct Ground {
    nest: Nest,
    pred: Prediction<1>,
    words: SharedWords,
}

/// Has two workers of a phase claim the tiles, as the crew runs them. Their seats are not taken back.
pub fn claim_all<C: Crew>(
    alloc: Global,
    tiles: &Tiles<'_>,
    crew: &mut C,
) -> Result<(), AllocError> {
    let nest = nest(alloc)?;
    let pred = prediction(alloc)?;
    let (words, main) = SharedWords::new(alloc, &[0; 40])?;
    claim_on_own_ground(alloc, Ground { nest, pred, words }, main, tiles, crew)
}

/// Keeps the ground while the workers refer to it.
fn claim_on_own_ground<C: Crew>(
    alloc: Global,
    ground: Ground,
    mut main: MainSeat,
    tiles: &Tiles<'_>,
    crew: &mut C,
) -> Result<(), AllocError>
    requires nest { ground.nest.loops ≡ one_row }
    requires pred { ground.pred ≡ row }
    requires table { main.table ≡ ground.words }
    requires start { IsStart main.view }
{
    claim_on_ground(alloc, &ground, &mut main, tiles, crew)
}

/// Makes the workers' task of the ground: the first turn of its nest.
fn claim_on_ground<C: Crew>(
    alloc: Global,
    ground: &Ground,
    main: &mut MainSeat,
    tiles: &Tiles<'_>,
    crew: &mut C,
) -> Result<(), AllocError>
    requires nest { ground.now.nest.loops ≡ one_row }
    requires pred { ground.now.pred ≡ row }
    requires table { main.old.table ≡ ground.now.words }
    requires start { IsStart main.old.view }
{
    let task = task(&ground.nest, &ground.pred);
    run_two_workers(alloc, &task, &ground.words, main, tiles, crew)
}

/// Posts the plan, sets the flag, lends two seats, and has the crew run the workers over them.
fn run_two_workers<'a, 'e, C: Crew>(
    alloc: Global,
    task: &'a Task<'a, 1>,
    words: &'a SharedWords,
    main: &mut MainSeat,
    tiles: &Tiles<'e>,
    crew: &mut C,
) -> Result<(), AllocError>
    requires table { main.old.table ≡ words.now }
    requires start { IsStart main.old.view }
    requires task { IsTask 1 (task_of task.now) (pos 40) }
{
    let mut jobs = Vec::with_capacity(alloc, 2)?;
    crew.reserve(1)?;
    main.post(words, tiles.plan);
    set_flag(tiles.flag, words, main);
    lend(1, task, words, main, tiles, &mut jobs);
    lend(2, task, words, main, tiles, &mut jobs);
    crew.work::<Counted<'e>, 1>(task.chunk.first, 0, &mut jobs);
    Ok(())
}

/// Lends a third seat, over which nobody works. It raises the flag where this is to be raised.
fn set_flag(flag: Flag, words: &SharedWords, main: &mut MainSeat)
    requires table { main.old.table ≡ words.now }
    requires posted { main.old.view.posted ≡ true }
    requires fresh { has 3 main.old.view.out ≡ false }
    ensures table { main.new.table ≡ main.old.table }
    ensures main { main.new.view ≡ lending_view main.old.view 3 }
{
    let mut seat = main.split(words, 3);
    if flag == Flag::Raised {
        seat.raise(words);
    }
}

/// Lends a seat to the worker of this number.
fn lend<'a, 'e>(
    number: u32,
    task: &'a Task<'a, 1>,
    words: &'a SharedWords,
    main: &mut MainSeat,
    tiles: &Tiles<'e>,
    jobs: &mut Vec<Worker<'a, Counted<'e>, 1>>,
)
    requires number { 0 < number }
    requires table { main.old.table ≡ words.now }
    requires posted { main.old.view.posted ≡ true }
    requires plan { main.old.view.plan ≡ tiles.now.plan.now }
    requires fresh { has number main.old.view.out ≡ false }
    requires count { length main.old.view.base ≡ 40 }
    requires task { IsTask 1 (task_of task.now) (pos 40) }
    requires room { vec_len jobs.old < vec_capacity jobs.old }
    ensures table { main.new.table ≡ main.old.table }
    ensures main { main.new.view ≡ lending_view main.old.view number }
    ensures count { vec_len jobs.new ≡ vec_len jobs.old + 1 }
    ensures room { vec_capacity jobs.new ≡ vec_capacity jobs.old }
{
    let seat = main.split(words, number);
    let walk = Counted::new(tiles.entered);
    jobs.push_reserved(Worker::new(number, seat, words, task, walk));
}
