//! The start of a phase: a seat is lent to each worker.

ghost use Rattle.std.specs.Prelude.{◌≡◌, ◌≤◌, [], length, vec_len, vec_capacity};
ghost use Rattle.follow_chunk.specs.Tasks.{task_of};
ghost use Rattle.phase_run.specs.Postings.{IsPostable};
ghost use Rattle.phase_run.specs.Seats.{AreOfPhase, IsPosted, OnlyTheirs};

use crate::posting::{MakeWalk, Posting};
use follow_chunk::Task;
use shared_words::MainSeat;
use verified_turns::Worker;

/// Lends a seat to each of the workers that are asked for, with numbers from 1. The plan was just posted, so nobody is
/// out; there is room for the workers. Takes no memory.
pub fn lend<'a, M: MakeWalk<D>, const D: usize>(
    task: &'a Task<'a, D>,
    posting: &Posting<'a, '_, M, D>,
    main: &mut MainSeat,
    workers: &mut Vec<Worker<'a, M::Out, D>>,
)
    requires table { main.old.table ≡ posting.now.table }
    requires postable { IsPostable D (length main.old.view.base) (task_of task.now) posting.now }
    requires posted { IsPosted posting.now main.old.view }
    requires none_out { main.old.view.out ≡ [] }
    requires empty { vec_len workers.old ≡ 0 }
    requires room { posting.now.workers ≤ vec_capacity workers.old }
    ensures table { main.new.table ≡ main.old.table }
    ensures main { main.new.view ≡ record main.old.view { out = main.new.view.out } }
    ensures count { vec_len workers.new ≡ posting.now.workers }
    ensures room { vec_capacity workers.old ≤ vec_capacity workers.new }
    ensures out { OnlyTheirs main.new.view.out workers.new.items }
    ensures lent { AreOfPhase (task_of task.now) posting.now main.old.view.base workers.new.items }
{
    let mut number = 0;
    while number < posting.workers {
        number += 1;
        let seat = main.split(posting.words, number);
        let walk = posting.walks.make();
        workers.push_reserved(Worker::new(number, seat, posting.words, task, walk));
    }
}
