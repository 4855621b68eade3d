//! A phase from its post to its end.

ghost use Rattle.std.specs.Prelude.{◌≡◌, ◌+◌, ◌-◌, ◌^◌, ◌<◌, ◌≤◌, false, length, vec_len, vec_capacity};
ghost use Rattle.follow_chunk.specs.Tasks.{task_of};
ghost use Rattle.phase_run.specs.Postings.{IsPostable};
ghost use Rattle.phase_run.specs.Phases.{PhaseRan, OthersKeep, next_view, GainsEntry};

use crate::close::close;
use crate::lend::lend;
use crate::posting::{MakeWalk, Posting};
use crew::Crew;
use follow_chunk::Task;
use shared_words::MainSeat;
use verified_turns::Worker;

/// Runs a phase: posts its plan, lends a seat to each of its workers, has the crew give them turns until each has
/// finished, takes the seats back and settles. It gives the steps of what was followed: main's base is then what the
/// instances of the tiles leave, one tile after another. None comes exactly where some instance of them deviates. In
/// either case each word that is a write of no tile is as before, no plan is posted, nobody is out, and the crew kept
/// one entry more. Main's epoch is below 2^63 - 1, no plan is posted, there is room for the workers and for the entry.
/// Takes no memory.
pub fn run_phase<'a, C: Crew, M: MakeWalk<D>, const D: usize>(
    task: &'a Task<'a, D>,
    posting: &Posting<'a, '_, M, D>,
    main: &mut MainSeat,
    workers: &mut Vec<Worker<'a, M::Out, D>>,
    crew: &mut C,
) -> Option<u64>
    requires table { main.old.table ≡ posting.now.table }
    requires unposted { main.old.view.posted ≡ false }
    requires epoch { main.old.view.epoch < 2 ^ 63 - 1 }
    requires postable { IsPostable D (length main.old.view.base) (task_of task.now) posting.now }
    requires empty { vec_len workers.old ≡ 0 }
    requires room { posting.now.workers ≤ vec_capacity workers.old }
    requires spare { 0 < C.spare crew.old }
    ensures table { main.new.table ≡ main.old.table }
    ensures view { main.new.view ≡ next_view main.old.view main.new.view.base }
    ensures stored { main.old.view.stored ≤ main.old.view.epoch }
    ensures ran { PhaseRan (task_of task.now) posting.now.lists main.old.view.base main.new.view.base result }
    ensures others { OthersKeep posting.now.plan main.old.view.base main.new.view.base }
    ensures handed { GainsEntry (task_of task.now) posting.now result (C.handed crew.old) (C.handed crew.new) }
    ensures spare { C.spare crew.new + 1 ≡ C.spare crew.old }
    ensures empty { vec_len workers.new ≡ 0 }
    ensures room { vec_capacity workers.old ≤ vec_capacity workers.new }
{
    main.post(posting.words, posting.plan);
    lend(task, posting, main, workers);
    crew.work(task.chunk.first, posting.number, workers);
    close(task, posting, main, workers)
}
