//! Runs phases of a nest of one store as often as its input says: one phase of one worker that follows the first
//! instance so often, or so many phases of four workers whose tiles are empty, by a crew that begins here or by one
//! that starts a thread for each. Each line of its input has `worker`, `phase` or `threads`, and a number. It writes
//! the steps. It stands on `phase_run`, and is what bench/turns.sh measures.
#![tactic(auto)]

ghost use Rattle.std.specs.Prelude.{◌≡◌, ◌<◌, ◌≤◌, ℕ, [], ◌∷◌, IfOk, length, true, false, vec_len, vec_capacity};
ghost use Rattle.atomic_table.specs.Seated.{TableId};
ghost use Rattle.domain.specs.Examples.{row};
ghost use Rattle.follow_chunk.specs.Laws.{one_row};
ghost use Rattle.follow_chunk.specs.Tasks.{task_of};
ghost use Rattle.phase_run.specs.Postings.{IsPostable};
ghost use Rattle.turns_bench.specs.Copies.{tiles_of, one_store, four_empty};

mod walks;

use core_steps::{Plan, Tile};
use crew::{Crew, Gate, LineCrew, OpenGate, ThreadCrew};
use domain::Prediction;
use follow_chunk::Task;
use nest_lang::Nest;
use phase_run::{Posting, run_phase};
use shared_words::{MainSeat, SharedWords};
use std::alloc::{AllocError, Global};
use std::io;
use std::io::{BufRead, BufReader};
use verified_turns::Worker;
use walks::{Repeated, Repeats};

fn main(rt: HostRuntime) -> io::Result<()> {
    let alloc = rt.alloc();
    let nest = sample_tasks::nest(alloc)?;
    let pred = sample_tasks::prediction(alloc)?;
    for line in BufReader::new(alloc, rt.reader())?.lines(alloc) {
        let line = line?;
        let mut words = line.as_str().split(' ');
        let kind = words.next().unwrap_or("");
        let times = words.next().map_or(0, number);
        let steps = match kind {
            "worker" => worker(alloc, &nest, &pred, times, &mut LineCrew::new(&rt, alloc))?,
            "phase" => {
                let mut crew = ThreadCrew::new(rt.clone()?, alloc, OpenGate);
                phases(alloc, &nest, &pred, times, &mut crew)?
            }
            "threads" => {
                let mut crew = ThreadCrew::new(rt.clone()?, alloc, Threshold);
                phases(alloc, &nest, &pred, times, &mut crew)?
            }
            _ => 0,
        };
        println!(rt; "{steps}")?;
    }
    Ok(())
}

/// A gate that doesn't say that it holds nobody, so that each worker begins on a thread.
#[derive(Drop)]
struct Threshold;

impl Gate for Threshold {
    fn pass(&self, _worker: u32) {}
}

/// The number that a word is, or 0 where it is none of 32 bits.
fn number(word: &str) -> u32 {
    word.parse::<u32>().unwrap_or(0)
}

/// What is run: so many phases of this plan, by so many workers each that walk so.
#[derive(Drop)]
struct Asked<'p> {
    plan: &'p Plan,
    walks: &'p Repeats,
    workers: u32,
    times: u32,
}

/// The steps of one phase of one worker, whose tile has so many instances, at most 65,536.
fn worker<C: Crew>(
    alloc: Global,
    nest: &Nest,
    pred: &Prediction<1>,
    times: u32,
    crew: &mut C,
) -> Result<u64, AllocError>
    requires nest { nest.now.loops ≡ one_row }
    requires pred { pred.now ≡ row }
{
    let plan = one_store(alloc)?;
    if times > 65_536 {
        return Ok(0);
    }
    let task = sample_tasks::task(nest, pred);
    let walks = Repeats {
        tiles: 1,
        each: times,
    };
    let asked = Asked {
        plan: &plan,
        walks: &walks,
        workers: 1,
        times: 1,
    };
    over_new_words(alloc, &task, &asked, crew)
}

/// The steps of so many phases of four workers, whose four tiles are empty.
fn phases<C: Crew>(
    alloc: Global,
    nest: &Nest,
    pred: &Prediction<1>,
    times: u32,
    crew: &mut C,
) -> Result<u64, AllocError>
    requires nest { nest.now.loops ≡ one_row }
    requires pred { pred.now ≡ row }
{
    let plan = four_empty(alloc)?;
    let task = sample_tasks::task(nest, pred);
    let walks = Repeats { tiles: 4, each: 0 };
    let asked = Asked {
        plan: &plan,
        walks: &walks,
        workers: 4,
        times,
    };
    over_new_words(alloc, &task, &asked, crew)
}

/// The steps of these phases, over words of their own.
fn over_new_words<C: Crew>(
    alloc: Global,
    task: &Task<'_, 1>,
    asked: &Asked<'_>,
    crew: &mut C,
) -> Result<u64, AllocError>
    requires postable { (table : TableId) (number : ℕ) → IsPostable 1 40 (task_of task.now) (record { table = table; lists = tiles_of asked.now.walks.now.tiles asked.now.walks.now.each; plan = asked.now.plan.now; number = number; workers = asked.now.workers }) }
{
    let (words, mut main) = SharedWords::new(alloc, &[0; 40])?;
    over_words(alloc, task, &words, asked, &mut main, crew)
}

/// The steps of these phases over these words, of which there are 40. No plan is posted at epoch 0.
fn over_words<C: Crew>(
    alloc: Global,
    task: &Task<'_, 1>,
    words: &SharedWords,
    asked: &Asked<'_>,
    main: &mut MainSeat,
    crew: &mut C,
) -> Result<u64, AllocError>
    requires postable { (table : TableId) (number : ℕ) → IsPostable 1 40 (task_of task.now) (record { table = table; lists = tiles_of asked.now.walks.now.tiles asked.now.walks.now.each; plan = asked.now.plan.now; number = number; workers = asked.now.workers }) }
    requires table { main.old.table ≡ words.now }
    requires unposted { main.old.view.posted ≡ false }
    requires long { length main.old.view.base ≡ 40 }
    requires epoch { main.old.view.epoch ≡ 0 }
{
    let mut all = Vec::new(alloc);
    all.reserve(asked.workers as usize)?;
    crew.reserve(u64::from(asked.times))?;
    Ok(one_after_another(task, words, asked, main, &mut all, crew))
}

/// The steps of these phases, one after another. No plan is posted at epoch 0, and there is room for the workers and
/// for the entries.
fn one_after_another<'a, C: Crew>(
    task: &'a Task<'a, 1>,
    words: &'a SharedWords,
    asked: &Asked<'_>,
    main: &mut MainSeat,
    all: &mut Vec<Worker<'a, Repeated, 1>>,
    crew: &mut C,
) -> u64
    requires postable { (table : TableId) (number : ℕ) → IsPostable 1 40 (task_of task.now) (record { table = table; lists = tiles_of asked.now.walks.now.tiles asked.now.walks.now.each; plan = asked.now.plan.now; number = number; workers = asked.now.workers }) }
    requires table { main.old.table ≡ words.now }
    requires unposted { main.old.view.posted ≡ false }
    requires long { length main.old.view.base ≡ 40 }
    requires epoch { main.old.view.epoch ≡ 0 }
    requires empty { vec_len all.old ≡ 0 }
    requires room { asked.now.workers ≤ vec_capacity all.old }
    requires spare { asked.now.times ≤ C.spare crew.old }
{
    let mut steps: u64 = 0;
    for number in 0..asked.times {
        let posting = Posting::new(words, asked.walks, asked.plan, number, asked.workers);
        let ran = run_phase(task, &posting, main, all, crew);
        steps = steps.wrapping_add(ran.unwrap_or(0));
    }
    steps
}

/// A plan of one tile, which writes word 0.
fn one_store(alloc: Global) -> Result<Plan, AllocError>
    ensures { IfOk result (λ plan. plan ≡ one_store) }
{
    let mut tiles = Vec::new(alloc);
    let writes = vec![in alloc; 0]?;
    tiles.push(Tile::new(Vec::new(alloc), writes))?;
    Ok(Plan::new(tiles))
}

/// A plan of four tiles without addresses.
fn four_empty(alloc: Global) -> Result<Plan, AllocError>
    ensures { IfOk result (λ plan. plan ≡ four_empty) }
{
    let mut tiles = Vec::new(alloc);
    tiles.push(Tile::new(Vec::new(alloc), Vec::new(alloc)))?;
    tiles.push(Tile::new(Vec::new(alloc), Vec::new(alloc)))?;
    tiles.push(Tile::new(Vec::new(alloc), Vec::new(alloc)))?;
    tiles.push(Tile::new(Vec::new(alloc), Vec::new(alloc)))?;
    Ok(Plan::new(tiles))
}
