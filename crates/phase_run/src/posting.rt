//! What is posted for a phase.

ghost use Rattle.std.specs.Prelude.{◌≡◌};

use core_steps::Plan;
use shared_words::SharedWords;
use skeletons::Walk;
use std::marker::Model;

/// What makes the walk of each worker of a phase.
pub trait MakeWalk<const D: usize> {
    type Out: Walk<D> + Send;

    ghost use Rattle.std.specs.Prelude.{◌≡◌, List, []};
    ghost use Rattle.domain.specs.Instances.{Instance as Point};

    /// The instances of each tile.
    ghost lists: { Self → List (List Point) };

    /// A walk over these lists that has entered no tile. Takes no memory.
    fn make(&self) -> Self::Out
        ensures lists { Self.Out.lists result ≡ lists self.now }
        ensures rest { Self.Out.rest result ≡ [] };
}

/// A phase of a task's chunk: its words, what makes the walks of its workers, the plan with a tile for each of their
/// lists, its number in the chunk, and how many workers it gets. Contracts see it as plain data (`specs/Postings`).
#[derive(Drop)]
pub struct Posting<'a, 'p, M: MakeWalk<D>, const D: usize> {
    pub words: &'a SharedWords,
    pub walks: &'p M,
    pub plan: &'p Plan,
    pub number: u32,
    pub workers: u32,
}

impl<'a, 'p, M: MakeWalk<D>, const D: usize> Model for Posting<'a, 'p, M, D> {
    ghost use Rattle.phase_run.specs.Postings.{PostingState};

    ghost Value = { PostingState };

    ghost view = { λ p. record {
      table = p.words.now;
      lists = M.lists p.walks.now;
      plan = p.plan.now;
      number = p.number;
      workers = p.workers;
    } };
}

impl<'a, 'p, M: MakeWalk<D>, const D: usize> Posting<'a, 'p, M, D> {
    /// The phase of this number over these words, with what makes the walks of its workers, its plan and their number.
    pub fn new(
        words: &'a SharedWords,
        walks: &'p M,
        plan: &'p Plan,
        number: u32,
        workers: u32,
    ) -> Posting<'a, 'p, M, D>
        ensures { result ≡ record { table = words.now; lists = M.lists walks.now; plan = plan.now; number = number; workers = workers } }
    {
        Posting {
            words,
            walks,
            plan,
            number,
            workers,
        }
    }
}
