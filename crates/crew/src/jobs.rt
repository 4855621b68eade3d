//! Jobs of a phase, run until none has a turn left.
ghost use Rattle.std.specs.Prelude.{◌≡◌, ◌≢◌, ◌<◌, ◌≤◌, ◌^◌, ◌↔◌, ℕ, length, slice_index_or, IsTrue};
ghost use Rattle.crew.specs.Jobs.{Ran, total};
ghost use Rattle.verified_turns.specs.Workers.{Origin, origin_of};

use skeletons::Walk;
use std::thread;
use std::thread::Threads;
use verified_turns::Worker;

/// So many turns take about as long as the start of a thread.
const TURNS_OF_A_START: u32 = 256;

/// What takes turns: a worker of a phase.
pub trait Job: Drop {
    /// What no turn changes.
    ghost origin: { Self → Origin };

    ghost left_of: { Self → ℕ };

    ghost steps_of: { Self → ℕ };

    fn number(&self) -> u32;

    fn tiles(&self) -> u32
        ensures { result ≡ length (origin self.now).lists };

    fn steps(&self) -> u64
        ensures value { result ≡ steps_of self.now }
        ensures few { result ≤ 2 ^ 36 };

    fn left(&self) -> u64
        ensures { result ≡ left_of self.now };

    fn turn(&mut self) -> bool
        requires left { 0 < left_of self.old }
        ensures origin { origin self.new ≡ origin self.old }
        ensures left { left_of self.new < left_of self.old }
        ensures more { IsTrue result ↔ (0 < left_of self.new) };
}

impl<W: Walk<D>, const D: usize> Job for Worker<'_, W, D> {
    ghost origin = { λ w. origin_of w };

    ghost left_of = { λ w. w.left };

    ghost steps_of = { λ w. w.steps };

    fn number(&self) -> u32 {
        Worker::number(self)
    }

    fn tiles(&self) -> u32 {
        Worker::tiles(self)
    }

    fn steps(&self) -> u64 {
        Worker::steps(self)
    }

    fn left(&self) -> u64 {
        Worker::left(self)
    }

    fn turn(&mut self) -> bool {
        Worker::turn(self)
    }
}

/// What each job passes before its first turn.
pub trait Gate: Sync {
    fn pass(&self, worker: u32);

    /// Whether a job may be held here until another has come. A gate that holds none may say so: the caller then passes
    /// it for each job, one after another.
    fn holds(&self) -> bool {
        true
    }
}

/// A gate that is open: it holds no job.
#[derive(Drop)]
pub struct OpenGate;

impl Gate for OpenGate {
    fn pass(&self, _worker: u32) {}

    fn holds(&self) -> bool {
        false
    }
}

/// Gives a job turns until none is left.
fn finish<J: Job>(job: &mut J)
    ensures origin { J.origin job.new ≡ J.origin job.old }
    ensures left { J.left_of job.new ≡ 0 }
{
    while job.left() > 0 {
        job.turn();
    }
}

/// Runs the jobs one after another, in their order.
pub fn line<J: Job>(jobs: &mut [J])
    ensures { Ran J.origin J.left_of jobs.old jobs.new }
{
    for job in jobs.iter_mut() {
        finish(job);
    }
}

/// One turn of the job at a place, where it has one left.
fn turn_at<J: Job>(jobs: &mut [J], place: usize)
    requires { place < length jobs.old }
    ensures { (i : ℕ) (d : J) → J.origin (slice_index_or jobs.new i d) ≡ J.origin (slice_index_or jobs.old i d) }
{
    let job = &mut jobs[place];
    if job.left() > 0 {
        job.turn();
    }
}

/// Gives turns to jobs by the order, each number modulo the number of jobs, and then runs what is left one after
/// another.
pub fn script<J: Job>(jobs: &mut [J], order: &[u32])
    ensures { Ran J.origin J.left_of jobs.old jobs.new }
{
    if !jobs.is_empty() {
        for number in order {
            turn_at(jobs, *number as usize % jobs.len());
        }
    }
    line(jobs);
}

/// Passes the gate, and gives the job turns until none is left.
fn begin<G: Gate, J: Job>(gate: &G, job: &mut J)
    ensures origin { J.origin job.new ≡ J.origin job.old }
    ensures left { J.left_of job.new ≡ 0 }
{
    gate.pass(job.number());
    finish(job);
}

/// How many threads are worth starting: as many as there are tiles, since a further worker would find each tile held.
fn threads_for<J: Job>(jobs: &[J]) -> usize
    ensures { 0 < result }
{
    jobs.first().map_or(1, |job| job.tiles() as usize).max(1)
}

/// Gives a job at most so many turns, and tells how many of them it didn't take: some only where the job has none left.
fn spend<J: Job>(job: &mut J, turns: u32) -> u32
    ensures origin { J.origin job.new ≡ J.origin job.old }
    ensures few { result ≤ turns }
    ensures left { 0 < result → J.left_of job.new ≡ 0 }
{
    let mut unspent = turns;
    while unspent > 0 && job.left() > 0 {
        job.turn();
        unspent -= 1;
    }
    unspent
}

/// Passes the gate for each job, and gives the jobs turns in their order, as many in all as a thread is worth. True
/// only where none has a turn left.
fn are_done_here<G: Gate, J: Job>(gate: &G, jobs: &mut [J]) -> bool
    ensures same_length { length jobs.new ≡ length jobs.old }
    ensures origin { (i : ℕ) (d : J) → J.origin (slice_index_or jobs.new i d) ≡ J.origin (slice_index_or jobs.old i d) }
    ensures left { IsTrue result → (i : ℕ) (d : J) → i < length jobs.old → J.left_of (slice_index_or jobs.new i d) ≡ 0 }
{
    let mut unspent = TURNS_OF_A_START;
    for job in jobs.iter_mut() {
        gate.pass(job.number());
        unspent = spend(job, unspent);
    }
    unspent > 0
}

/// Runs the jobs beside each other, on threads where these can be started, and else here. Where the gate may hold them,
/// each job has a thread of its own, since two on one thread would wait for each other in vain. Where it holds none the
/// caller begins, and what it leaves has at most as many threads as there are tiles: so little work starts no thread.
pub fn beside<R: Threads + Sync, G: Gate, J: Job + Send>(rt: &R, gate: &G, jobs: &mut [J])
    ensures { Ran J.origin J.left_of jobs.old jobs.new }
{
    let all = jobs.len().max(1);
    let threads = threads_for(jobs);
    if gate.holds() {
        thread::for_each_mut(rt, jobs, all, &|_, job: &mut J| begin(gate, job));
    } else if !are_done_here(gate, jobs) {
        thread::for_each_mut(rt, jobs, threads, &|_, job: &mut J| finish(job));
    }
}

/// The steps of all jobs, of which there are at most 64.
pub fn total_steps<J: Job>(jobs: &[J]) -> u64
    requires { length jobs.now ≤ 64 }
    ensures { result ≡ total J.steps_of jobs.now }
{
    let mut steps = 0;
    for job in jobs {
        steps += job.steps();
    }
    steps
}
