//! Shows what the layers under the top call know of nests and do with them: each line of standard input is a limit of
//! steps, two numbers of turns and, behind a colon, the text of a file. Of the file's first nest it writes the blocks
//! with their ranks and accesses, and then what a watch is shown where the nest is entered and two lots of turns are
//! run, and what they leave. It stands on `nest_text`, `plain_interp` and `block_exec`, whose calls it shows.
#![tactic(auto)]

mod answer;
mod blocks;
mod parts;
mod record;
mod turns;

use std::io;
use std::io::{BufRead, BufReader};

fn main(rt: HostRuntime) -> io::Result<()> {
    let alloc = rt.alloc();
    for line in BufReader::new(alloc, rt.reader())?.lines(alloc) {
        let text = answer::answer(alloc, line?.as_str())?;
        println!(rt; "{text}")?;
    }
    Ok(())
}
