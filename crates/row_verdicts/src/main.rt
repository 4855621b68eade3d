//! Reads systems of rows, one a line, and writes for each what elimination says of it: its verdict and, where that
//! is Maybe, the range of each variable after the least values of those before it. It stands on `fourier_motzkin`
//! alone, and is what the cross-check and the benchmark under tools/ and bench/ run.
#![tactic(auto)]

mod answer;
mod system;

use std::io;
use std::io::{BufRead, BufReader};

fn main(rt: HostRuntime) -> io::Result<()> {
    let alloc = rt.alloc();
    for line in BufReader::new(alloc, rt.reader())?.lines(alloc) {
        let text = answer::answer(alloc, line?.as_str())?;
        println!(rt; "{text}")?;
    }
    Ok(())
}
