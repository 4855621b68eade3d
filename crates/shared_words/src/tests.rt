//! What the seats do when they run: a phase of one worker, a claim that loses, a seat that isn't taken back, and
//! claims from two threads at once.
ghost use Rattle.std.specs.Prelude.{◌≡◌, ℕ, ◌<◌, ◌≤◌, ◌^◌, true, false, [], ◌∷◌, length, IfOk};
ghost use Rattle.core_steps.specs.Examples.{one_tile};
ghost use Rattle.core_steps.specs.Plans.{IsSeparate, IsInside};
ghost use Rattle.core_steps.specs.Views.{first_view};

use crate::{MainSeat, SharedWords, WorkSeat};
use core_steps::{Plan, Tile};
use std::alloc::{AllocError, Global};
use std::process::Abort;
use std::test::Fail;
use std::thread;
use std::thread::Threads;

/// One tile that reads word 0 and writes word 1.
fn plan_of_one(alloc: Global) -> Result<Plan, AllocError>
    ensures { IfOk result (λ plan. plan ≡ one_tile) }
{
    let mut tiles = Vec::new(alloc);
    let reads = vec![in alloc; 0]?;
    let writes = vec![in alloc; 1]?;
    tiles.push(Tile::new(reads, writes))?;
    Ok(Plan::new(tiles))
}

/// The row of a phase: worker 1 claims the tile, loads word 0 and stores 9 to word 1.
fn phase<R: Abort>(
    rt: &R,
    alloc: Global,
    words: SharedWords,
    mut main: MainSeat,
) -> Result<(), Fail>
    requires table { main.table ≡ words }
    requires start { main.view ≡ first_view (5 ∷ 6 ∷ []) }
{
    let plan = plan_of_one(alloc)?;
    main.post(&words, &plan);
    let mut seat = main.split(&words, 1);
    let mut other = main.split(&words, 2);
    assert!(rt; !seat.raised(&words));
    if seat.claim(&words, 0) {
        assert_eq!(rt; seat.load(&words, 0), 5);
        seat.store(&words, 1, 9);
        assert_eq!(rt; seat.load(&words, 1), 9);
    } else {
        panic!(rt; "the first claim lost");
    }
    assert!(rt; !other.claim(&words, 0), "the second claim won");
    main.join(&words, seat);
    main.join(&words, other);
    assert!(rt; !main.settle(&words));
    assert_eq!(rt; main.load(&words, 0), 5);
    assert_eq!(rt; main.load(&words, 1), 9);
    assert_eq!(rt; words.count(), 2);
    Ok(())
}

#[test]
fn a_phase_stores_into_the_memory(rt: HostRuntime) -> Result<(), Fail> {
    let (words, main) = SharedWords::new(rt.alloc(), &[5, 6])?;
    phase(&rt, rt.alloc(), words, main)
}

/// So many tiles without addresses, which may be posted over any words.
#[tactic(auto, using(crate::proofs::EmptyTileLaws::empty_tiles))]
fn empty_tiles(alloc: Global, count: u32) -> Result<Plan, AllocError>
    ensures counted { IfOk result (λ plan. length plan.tiles ≡ count) }
    ensures separate { IfOk result (λ plan. IsSeparate plan) }
    ensures inside { IfOk result (λ plan. (words : ℕ) → IsInside words plan) }
{
    let mut all = Vec::new(alloc);
    for _tile in 0..count {
        all.push(Tile::new(Vec::new(alloc), Vec::new(alloc)))?;
    }
    Ok(Plan::new(all))
}

/// Claims the tiles in order, and notes those that it won.
fn claim_all(words: &SharedWords, seat: &mut WorkSeat, tiles: u32, won: &mut Vec<u32>)
    requires table { seat.old.table ≡ words.now }
    requires planned { tiles ≤ length seat.old.view.plan.tiles }
{
    for tile in 0..tiles {
        if seat.claim(words, tile) {
            let _ = won.push(tile);
        }
    }
}

/// Two workers claim all tiles, each in a thread. Neither seat is taken back.
fn claims_beside<R: Threads + Sync + Abort>(
    rt: &R,
    alloc: Global,
    words: SharedWords,
    mut main: MainSeat,
    plan: &Plan,
) -> Result<(), Fail>
    requires table { main.table ≡ words }
    requires start { main.view.posted ≡ false }
    requires epoch { main.view.epoch ≡ 0 }
    requires out { main.view.out ≡ [] }
    requires plan { IsSeparate plan.now }
    requires inside { IsInside (length main.view.base) plan.now }
    requires few { length plan.now.tiles ≤ 65536 }
{
    let tiles = plan.tiles.len() as u32;
    main.post(&words, plan);
    let mut left = main.split(&words, 1);
    let mut right = main.split(&words, 2);
    let (mut by_left, mut by_right) = (Vec::new(alloc), Vec::new(alloc));
    thread::join_mut(
        rt,
        &mut || claim_all(&words, &mut left, tiles, &mut by_left),
        &mut || claim_all(&words, &mut right, tiles, &mut by_right),
    );
    by_left.extend_from_slice(by_right.as_slice())?;
    by_left.sort_unstable();
    let all: Vec<u32> = (0..tiles).collect(alloc)?;
    assert!(rt;
        by_left.as_slice() == all.as_slice(),
        "a tile is held twice or by nobody"
    );
    Ok(())
}

#[test]
fn two_threads_claim_a_thousand_tiles_once_each(rt: HostRuntime) -> Result<(), Fail> {
    let alloc = rt.alloc();
    let plan = empty_tiles(alloc, 1_000)?;
    let (words, main) = SharedWords::new(alloc, &[0; 1_000])?;
    claims_beside(&rt, alloc, words, main, &plan)
}

fn may_cross<T: Send>() {}

#[test]
fn a_seat_may_go_to_another_thread(_rt: HostRuntime) {
    may_cross::<WorkSeat>();
}
