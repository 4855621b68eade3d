//! The tiles that two workers claim.
ghost use Rattle.std.specs.Prelude.{◌≡◌, ◌≤◌, IfOk, length};
ghost use Rattle.core_steps.specs.Plans.{IsSeparate, IsInside};

use core_steps::{Plan, Tile};
use std::alloc::{AllocError, Global};
use std::sync::atomic::AtomicU64;

/// How the flag of the phase is before the workers begin.
#[derive(Clone, Copy, PartialEq, Eq)]
pub enum Flag {
    Down,
    Raised,
}

/// A plan over 40 words, with a number for each tile that counts how often it was entered, and the flag to begin with.
#[derive(Drop)]
pub struct Tiles<'a> {
    pub plan: &'a Plan,
    pub entered: &'a [AtomicU64],
    pub flag: Flag,
    ghost separate: { IsSeparate plan.now },
    ghost inside: { IsInside 40 plan.now },
    ghost few: { length entered.now ≤ 65536 },
    ghost counted: { length plan.now.tiles ≡ length entered.now },
}

impl<'a> Tiles<'a> {
    /// None where the plan has more than 65,536 tiles, or another number of them.
    pub fn new(plan: &'a Plan, entered: &'a [AtomicU64], flag: Flag) -> Option<Tiles<'a>>
        requires separate { IsSeparate plan.now }
        requires inside { IsInside 40 plan.now }
    {
        let tiles = plan.tiles.len();
        if tiles > 65_536 || tiles != entered.len() {
            return None;
        }
        Some(Tiles {
            plan,
            entered,
            flag,
        })
    }
}

/// So many tiles without addresses, which may be posted over 40 words.
#[tactic(auto, using(shared_words::proofs::EmptyTileLaws::empty_tiles))]
pub fn plan_of(alloc: Global, tiles: u32) -> Result<Plan, AllocError>
    ensures separate { IfOk result (λ plan. IsSeparate plan) }
    ensures inside { IfOk result (λ plan. IsInside 40 plan) }
{
    let mut all = Vec::new(alloc);
    for _tile in 0..tiles {
        all.push(Tile::new(Vec::new(alloc), Vec::new(alloc)))?;
    }
    Ok(Plan::new(all))
}
