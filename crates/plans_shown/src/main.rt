//! Plans chunks of nests, one a line, and writes their plans. It stands on `tiles`, whose calls it shows, and is what
//! bench/plans.sh measures.
//!
//! A line is `WORD FIRST TURNS TIMES: TEXT`. TEXT is a file, whose first nest is profiled over 4 turns; the first of its
//! candidates (the standard ones where it has none) that is legal for chunks of TURNS turns orders the chunk of TURNS
//! turns from FIRST on. `plan` writes how many instances, phases, tiles and stripes the plan has, `show` its phases too,
//! with what each tile reads and writes, and its stripes, and `walk` how many instances the walks over its tiles give.
//! All is done TIMES times, and what was found last is written.
#![tactic(auto)]

mod answer;
mod asked;
mod planned;
mod texts;

use std::io;
use std::io::{BufRead, BufReader};

fn main(rt: HostRuntime) -> io::Result<()> {
    let alloc = rt.alloc();
    for line in BufReader::new(alloc, rt.reader())?.lines(alloc) {
        let text = answer::answer(alloc, line?.as_str())?;
        println!(rt; "{text}")?;
    }
    Ok(())
}
