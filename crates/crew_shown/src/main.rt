//! Two workers over a plan of 1,000 tiles, run by each crew: they hold each tile once, and where they are run beside
//! each other they meet at a gate, also where the plan has one tile. Where the flag is raised before they begin they
//! hold none. It stands on `crew`. Workers that are run one after the other wait at the gate in vain, so the stored
//! output is that of a `ThreadCrew` that runs them beside each other.
#![tactic(auto)]

ghost use Rattle.core_steps.specs.Plans.{IsSeparate, IsInside};

mod counts;
mod meeting;
mod pair;
mod tiles;

use crate::counts::{counters, once};
use crate::meeting::Meeting;
use crate::pair::claim_all;
use crate::tiles::{Flag, Tiles, plan_of};
use core_steps::Plan;
use crew::{Crew, LineCrew, OpenGate, ScriptCrew, ThreadCrew};
use std::alloc::{AllocError, Global};
use std::io;
use std::sync::atomic::{AtomicU64, Ordering};
use std::thread::Threads;

/// How many tiles the plan has.
const TILES: u32 = 1_000;

fn main(rt: HostRuntime) -> io::Result<()> {
    let alloc = rt.alloc();
    let plan = plan_of(alloc, TILES)?;
    let Met {
        held,
        noted,
        in_vain,
    } = meet(&rt, alloc, &plan)?;
    println!(rt; "threads that meet: {held} held once, {noted} noted, {in_vain} in vain")?;
    let Met {
        held,
        noted,
        in_vain,
    } = meet(&rt, alloc, &plan_of(alloc, 1)?)?;
    println!(rt;
        "threads that meet over one tile: {held} held once, {noted} noted, {in_vain} in vain"
    )?;
    let mut threads = ThreadCrew::new(&rt, alloc, OpenGate);
    let held = held_once(alloc, &plan, Flag::Down, &mut threads)?;
    println!(rt; "threads: {held} held once")?;
    let held = held_once(alloc, &plan, Flag::Down, &mut LineCrew::new(&rt, alloc))?;
    println!(rt; "in line: {held} held once")?;
    let mut by_list = ScriptCrew::new(&rt, alloc, vec![in alloc; 0, 1, 1, 0, 3]?);
    let held = held_once(alloc, &plan, Flag::Down, &mut by_list)?;
    println!(rt; "by a list: {held} held once")?;
    let held = held_once(alloc, &plan, Flag::Raised, &mut LineCrew::new(&rt, alloc))?;
    println!(rt; "in line after the flag was raised: {held} held once")?;
    Ok(())
}

/// What two workers did that met at a gate: how many tiles they held once, how many were noted, and how many waited in
/// vain.
struct Met {
    held: usize,
    noted: u64,
    in_vain: u64,
}

/// Has two workers of this plan meet at a gate, on threads.
fn meet<R: Threads + Sync>(rt: &R, alloc: Global, plan: &Plan) -> Result<Met, AllocError>
    requires separate { IsSeparate plan.now }
    requires inside { IsInside 40 plan.now }
{
    let (noted, in_vain) = (AtomicU64::new(0), AtomicU64::new(0));
    let mut crew = ThreadCrew::new(rt, alloc, Meeting::new(&noted, &in_vain));
    let held = held_once(alloc, plan, Flag::Down, &mut crew)?;
    Ok(Met {
        held,
        noted: noted.load(Ordering::SeqCst),
        in_vain: in_vain.load(Ordering::SeqCst),
    })
}

/// How many tiles of the plan two workers hold once, as this crew runs them after this flag.
fn held_once<C: Crew>(
    alloc: Global,
    plan: &Plan,
    flag: Flag,
    crew: &mut C,
) -> Result<usize, AllocError>
    requires separate { IsSeparate plan.now }
    requires inside { IsInside 40 plan.now }
{
    let entered = counters(alloc, plan.tiles.len())?;
    if let Some(tiles) = Tiles::new(plan, entered.as_slice(), flag) {
        claim_all(alloc, &tiles, crew)?;
    }
    Ok(once(entered.as_slice()))
}
