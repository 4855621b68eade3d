//! Cases: words and a text, run under each crew.

use crate::crews::{Entrance, Kind, Order};
use crate::runs::{Ran, run, same_phases};
use std::alloc::{AllocError, Global};
use std::io;
use std::thread::Threads;

/// How often a list is gone through where workers are to be run by turns up to their ends.
pub const ROUNDS: u32 = 40;

/// The kinds of the crews beside that which runs its workers in line.
pub const OTHERS: [Kind; 9] = [
    Kind::OnThreads(Entrance::Open),
    Kind::OnThreads(Entrance::Threshold),
    Kind::ByList(Order::Rising, 1),
    Kind::ByList(Order::Falling, 1),
    Kind::ByList(Order::Mixed, 1),
    Kind::ByList(Order::Rising, ROUNDS),
    Kind::ByList(Order::Falling, ROUNDS),
    Kind::ByList(Order::Mixed, ROUNDS),
    Kind::ByList(Order::ThirdFirst, 1),
];

/// The kinds under which a case that takes long is run beside the crew that runs its workers in line.
pub const THREADS: [Kind; 2] = [
    Kind::OnThreads(Entrance::Open),
    Kind::OnThreads(Entrance::Threshold),
];

/// How many bytes are more than a text may have.
const TOO_MANY: usize = 1_048_577;

/// Writes the words of a case, its answer and status under workers in line, and then of crews of these kinds whether
/// each gives the same. A case without a text is a fault; an empty one is none.
pub fn show_case<R: Threads + Sync + Alloc<A = Global> + Print>(
    rt: &R,
    case: &str,
    kinds: &[Kind],
) -> io::Result<()> {
    if case.is_empty() {
        return Ok(());
    }
    let Some((line, text)) = case.split_once('\n') else {
        return println!(rt; "fault");
    };
    show(rt, line, text, kinds)
}

/// And so of a text of blanks that is longer than a text may be.
pub fn show_blanks<R: Threads + Sync + Alloc<A = Global> + Print>(rt: &R) -> io::Result<()> {
    let mut blanks = String::with_capacity(rt.alloc(), TOO_MANY)?;
    for _ in 0..TOO_MANY {
        blanks.push(' ')?;
    }
    show(rt, "run", blanks.as_str(), &OTHERS)
}

/// Writes the answer of these words and this text, and of crews of these kinds whether each gives the same.
fn show<R: Threads + Sync + Alloc<A = Global> + Print>(
    rt: &R,
    line: &str,
    text: &str,
    kinds: &[Kind],
) -> io::Result<()> {
    let words = words_of(rt.alloc(), line)?;
    let first = run(rt, Kind::InLine, words.as_slice(), text)?;
    println!(rt; "nestrun {line}")?;
    print!(rt; "{}", text_of(first.sink.bytes()))?;
    println!(rt; "exit {}", first.status.exit())?;
    for kind in kinds {
        let other = run(rt, *kind, words.as_slice(), text)?;
        show_other(rt, *kind, &first, &other)?;
    }
    println!(rt; "")
}

/// Writes whether a run under another crew is the same as the first, or what differs.
fn show_other<R: Alloc<A = Global> + Print>(
    rt: &R,
    kind: Kind,
    first: &Ran,
    other: &Ran,
) -> io::Result<()> {
    let name = kind.name(rt.alloc())?;
    if other.status != first.status {
        println!(rt; "{name}: exit {}", other.status.exit())?;
    }
    if other.sink.bytes() != first.sink.bytes() {
        println!(rt; "{name}: other bytes\n{}", text_of(other.sink.bytes()))?;
    }
    if !same_phases(first.handed.as_slice(), other.handed.as_slice()) {
        println!(rt; "{name}: other phases")?;
    }
    if is_same(first, other) {
        println!(rt; "{name}: the same")?;
    }
    Ok(())
}

/// Whether two runs have the same status and bytes, and handed over the same phases.
fn is_same(first: &Ran, other: &Ran) -> bool {
    other.status == first.status
        && other.sink.bytes() == first.sink.bytes()
        && same_phases(first.handed.as_slice(), other.handed.as_slice())
}

/// Bytes as a text.
pub fn text_of(bytes: &[u8]) -> &str {
    str::from_utf8(bytes).unwrap_or("no text")
}

/// The words of a line.
pub fn words_of(alloc: Global, line: &str) -> Result<Vec<String>, AllocError> {
    let mut words = Vec::new(alloc);
    for word in line.split_whitespace() {
        words.push(String::from_str(alloc, word)?)?;
    }
    Ok(words)
}
