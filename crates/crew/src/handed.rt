//! What runs the jobs of a phase, and what it tells of it.
ghost use Rattle.std.specs.Prelude.{◌≡◌, ◌+◌, ◌<◌, ◌≤◌, List, [], ◌∷◌, ◌++◌, ℕ, IfOk, OnErr, vec_len, vec_capacity};
ghost use Rattle.crew.specs.Jobs.{Ran, total, tiles_of};
ghost use Rattle.verified_turns.specs.Workers.{Status, origin_of};

use crate::jobs::{Gate, Job, beside, line, script, total_steps};
use skeletons::Walk;
use std::alloc::AllocError;
use std::thread::Threads;
use verified_turns::Worker;

/// What was handed to a crew at one phase: the first turn of the chunk, the number of the phase, how many workers with
/// how many tiles to try, and the steps of all of them as they came back.
#[derive(Clone, Copy, Debug, PartialEq, Eq)]
pub struct Handed {
    pub first: i64,
    pub phase: u32,
    pub workers: u32,
    pub tiles: u32,
    pub steps: u64,
}

/// How a crew runs its jobs: one after another, by a list of turns, or beside each other behind a gate.
pub enum Way<'a, R, G> {
    Line,
    Script(&'a [u32]),
    Beside(&'a R, &'a G),
}

impl<R: Threads + Sync, G: Gate> Way<'_, R, G> {
    /// Runs the jobs so.
    fn run<J: Job + Send>(self, jobs: &mut [J])
        ensures { Ran J.origin J.left_of jobs.old jobs.new }
    {
        match self {
            Way::Line => line(jobs),
            Way::Script(order) => script(jobs, order),
            Way::Beside(rt, gate) => beside(rt, gate, jobs),
        }
    }
}

/// What runs the jobs of a phase until each has finished, and keeps an entry for each phase. `work` is the same for
/// all; a crew says how its jobs are run.
pub trait Crew {
    type Rt: Threads + Sync;

    type Pass: Gate;

    ghost use Rattle.std.specs.Prelude.{ℕ, List};
    ghost use Rattle.crew.specs.declared.handed.Handed.{Handed};

    /// What was handed to it, the latest last.
    ghost handed: { Self → List Handed };

    /// For how many more entries there is room.
    ghost spare: { Self → ℕ };

    /// Makes room for the entries of so many phases, or leaves all as it was where no memory is found.
    fn reserve(&mut self, phases: u64) -> Result<(), AllocError>
        ensures handed { handed self.new ≡ handed self.old }
        ensures spare { IfOk result (λ _. phases ≤ spare self.new) }
        ensures kept { OnErr result (spare self.new ≡ spare self.old) };

    /// How it runs its jobs.
    fn way(&self) -> Way<'_, Self::Rt, Self::Pass>;

    /// Keeps an entry, for which there is room.
    fn note(&mut self, entry: Handed)
        requires { 0 < spare self.old }
        ensures handed { handed self.new ≡ handed self.old ++ entry ∷ [] }
        ensures spare { spare self.new + 1 ≡ spare self.old };

    /// Runs the workers of one phase, 1 to 64, until each has finished: each comes back at its place, with its origin.
    /// One entry is kept, for which there is to be room. Takes no memory.
    final fn work<W: Walk<D> + Send, const D: usize>(
        &mut self,
        first: i64,
        phase: u32,
        jobs: &mut Vec<Worker<'_, W, D>>,
    )
        requires room { 0 < spare self.old }
        requires some { 0 < vec_len jobs.old }
        requires few { vec_len jobs.old ≤ 64 }
        ensures room { vec_capacity jobs.old ≤ vec_capacity jobs.new }
        ensures ran { Ran (λ (w : Status D). origin_of w) (λ (w : Status D). w.left) jobs.old.items jobs.new.items }
        ensures handed { handed self.new ≡ handed self.old ++ record { first = first; phase = phase; workers = vec_len jobs.old; tiles = tiles_of jobs.old.items; steps = total (λ (w : Status D). w.steps) jobs.new.items } ∷ [] }
        ensures spare { spare self.new + 1 ≡ spare self.old }
    {
        let workers = jobs.len() as u32;
        let tiles = jobs[0].tiles();
        self.way().run(jobs.as_mut_slice());
        let steps = total_steps(jobs.as_slice());
        self.note(Handed {
            first,
            phase,
            workers,
            tiles,
            steps,
        });
    }
}
