//! Rounds of a load and a store over a memory of 1,024 words.
ghost use Rattle.std.specs.Prelude.{◌≡◌, ℕ, ◌<◌, false, [], true, length, IfOk};
ghost use Rattle.core_steps.specs.Plans.{IsSeparate, IsInside, writes};
ghost use Rattle.core_steps.specs.Views.{may_load, may_store};
ghost use Rattle.words_bench.specs.Reach.{MayTouchAll, AreBelow};

use core_steps::{Plan, Tile};
use shared_words::{MainSeat, SharedWords, WorkSeat};
use std::alloc::{AllocError, Global};

/// How many words the memory has.
const WORDS: u32 = 1_024;

/// The sum of what so many rounds loaded, each of which stores one more than it found.
pub fn on_a_slice(rounds: u32) -> i64 {
    let mut memory = [0; 1_024];
    on_words(&mut memory, rounds)
}

fn on_words(memory: &mut [i64], rounds: u32) -> i64
    requires { length memory.old ≡ 1024 }
{
    let mut sum = 0i64;
    for round in 0..rounds {
        let address = (round % WORDS) as usize;
        let found = memory[address];
        sum = sum.wrapping_add(found);
        memory[address] = found.wrapping_add(1);
    }
    sum
}

/// The same through the seat of a worker that claimed a tile of all words.
pub fn through_a_seat(alloc: Global, rounds: u32) -> Result<i64, AllocError> {
    let (words, main) = SharedWords::new(alloc, &[0; 1_024])?;
    by_worker(alloc, words, main, rounds)
}

fn by_worker(
    alloc: Global,
    words: SharedWords,
    mut main: MainSeat,
    rounds: u32,
) -> Result<i64, AllocError>
    requires table { main.table ≡ words }
    requires unposted { main.view.posted ≡ false }
    requires epoch { main.view.epoch ≡ 0 }
    requires out { main.view.out ≡ [] }
    requires base { length main.view.base ≡ 1024 }
{
    let plan = plan_of_all(alloc)?;
    main.post(&words, &plan);
    let mut seat = main.split(&words, 1);
    if !seat.claim(&words, 0) {
        return Ok(0);
    }
    Ok(by_seat(&words, &mut seat, rounds))
}

fn by_seat(words: &SharedWords, seat: &mut WorkSeat, rounds: u32) -> i64
    requires table { seat.old.table ≡ words.now }
    requires reach { MayTouchAll seat.old.view }
{
    let mut sum = 0i64;
    for round in 0..rounds {
        let address = u64::from(round % WORDS);
        let found = seat.load(words, address);
        sum = sum.wrapping_add(found);
        seat.store(words, address, found.wrapping_add(1));
    }
    sum
}

/// One tile that writes all words.
fn plan_of_all(alloc: Global) -> Result<Plan, AllocError>
    ensures one { IfOk result (λ plan. length plan.tiles ≡ 1) }
    ensures separate { IfOk result (λ plan. IsSeparate plan) }
    ensures inside { IfOk result (λ plan. IsInside 1024 plan) }
    ensures all { IfOk result (λ plan. (a : ℕ) → a < 1024 → writes plan 0 a ≡ true) }
{
    let mut tiles = Vec::new(alloc);
    tiles.push(Tile::new(Vec::new(alloc), all_addresses(alloc)?))?;
    Ok(Plan::new(tiles))
}

/// The addresses of all words.
#[tactic(auto, using(crate::proofs::AddressLaws::addresses))]
fn all_addresses(alloc: Global) -> Result<Vec<u64>, AllocError>
    ensures { IfOk result (λ addresses. AreBelow 1024 addresses.items) }
{
    let mut addresses = Vec::new(alloc);
    for address in 0..u64::from(WORDS) {
        addresses.push(address)?;
    }
    Ok(addresses)
}
