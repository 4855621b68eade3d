//! A nest whose predictions fail twice in a chunk.

use crate::cases::{ROUNDS, text_of, words_of};
use crate::crews::{Kind, Order};
use crate::runs::{Ran, run};
use nest_top::Status;
use std::alloc::{AllocError, Global};
use std::io;
use std::thread::Threads;

/// The kinds of the crews of the table.
const LISTS: [Kind; 6] = [
    Kind::ByList(Order::Rising, 1),
    Kind::ByList(Order::Falling, 1),
    Kind::ByList(Order::Mixed, 1),
    Kind::ByList(Order::Rising, ROUNDS),
    Kind::ByList(Order::Falling, ROUNDS),
    Kind::ByList(Order::Mixed, ROUNDS),
];

/// The nest whose turns `one` and `two` each store at a word that no earlier turn touched.
fn nest(alloc: Global, one: u32, two: u32) -> Result<String, AllocError> {
    format!(in alloc;
        "nest 1 memory 200 for i = 0 below 68 {{ [i] = 1 if i == {one} {{ [150] = 9 }} if i == {two} {{ [151] = 9 }} }}"
    )
}

/// Its answer where turn `one` is in the second chunk and comes before the other.
fn answer(alloc: Global, one: u32) -> Result<String, AllocError> {
    format!(in alloc;
        "ended
words 0 67 1
words 150 151 9
steps 207
profile 0 turns 4
commit 4 turns 32 candidate 1 instances 32 phases 1 tiles 5 steps 96
rollback 36 turns 32 at pre1 ({one}) unseen 2 address 150
plain 36 turns 32
"
    )
}

/// Writes for each turn of the second chunk but the last whether the answer is the expected one where this turn and the
/// next are those that deviate.
pub fn show_table<R: Threads + Sync + Alloc<A = Global> + Print>(rt: &R) -> io::Result<()> {
    for one in 36..67 {
        show_row(rt, one)?;
    }
    println!(rt; "")
}

/// Writes of each list whether it gives the expected answer, or what it gives.
fn show_row<R: Threads + Sync + Alloc<A = Global> + Print>(rt: &R, one: u32) -> io::Result<()> {
    let alloc = rt.alloc();
    let expected = answer(alloc, one)?;
    let two = one.saturating_add(1);
    let text = nest(alloc, one, two)?;
    let words = words_of(alloc, "run")?;
    print!(rt; "turns {one} and {two}:")?;
    for kind in LISTS {
        let ran = run(rt, kind, words.as_slice(), text.as_str())?;
        let name = kind.name(alloc)?;
        if is_expected(&ran, expected.as_str()) {
            print!(rt; " {name}: as expected;")?;
        } else {
            print!(rt;
                " {name}: exit {}\n{}",
                ran.status.exit(),
                text_of(ran.sink.bytes())
            )?;
        }
    }
    println!(rt; "")
}

fn is_expected(ran: &Ran, expected: &str) -> bool {
    ran.status == Status::Ended && ran.sink.bytes() == expected.as_bytes()
}

/// Writes what crews were handed where turns 45 and 50 deviate. The steps of a chunk that is rolled back tell how far its
/// workers came.
pub fn show_handed<R: Threads + Sync + Alloc<A = Global> + Print>(rt: &R) -> io::Result<()> {
    let alloc = rt.alloc();
    let text = nest(alloc, 45, 50)?;
    let words = words_of(alloc, "run")?;
    for kind in [Kind::InLine, Kind::ByList(Order::ThirdFirst, 1)] {
        let ran = run(rt, kind, words.as_slice(), text.as_str())?;
        println!(rt; "handed, {}:", kind.name(alloc)?)?;
        for entry in &ran.handed {
            println!(rt;
                "turn {} phase {} workers {} tiles {} steps {}",
                entry.first, entry.phase, entry.workers, entry.tiles, entry.steps
            )?;
        }
    }
    Ok(())
}
