//! Times loads and stores through a worker's seat against the same on a plain slice. Each line of its input is `seat` or
//! `slice` and a number of rounds, and it writes what that took; bench/words.sh runs it. No clause says what it writes.
#![tactic(auto)]

mod rounds;

use std::alloc::{AllocError, Global};
use std::io;
use std::io::{BufRead, BufReader};
use std::time::Instant;

fn main(rt: HostRuntime) -> io::Result<()> {
    let alloc = rt.alloc();
    for line in BufReader::new(alloc, rt.reader())?.lines(alloc) {
        let line = line?;
        let mut words = line.as_str().split(' ');
        let kind = words.next().unwrap_or("");
        let count = words
            .next()
            .and_then(|word| word.parse::<u32>().ok())
            .unwrap_or(0);
        let start = Instant::now(&rt)?;
        let answer = answer(alloc, kind, count)?;
        let spent = start.elapsed(&rt)?.as_micros();
        println!(rt; "{kind} {count}: {spent} microseconds, answer {answer}")?;
    }
    Ok(())
}

/// A number that depends on all of the work.
fn answer(alloc: Global, kind: &str, count: u32) -> Result<i64, AllocError> {
    match kind {
        "seat" => rounds::through_a_seat(alloc, count),
        "slice" => Ok(rounds::on_a_slice(count)),
        _ => Ok(0),
    }
}
