//! Shows the first deviations of chunks. Each line of standard input has how many turns of a nest are profiled, how many
//! turns the chunk behind them has, how many steps are left for these and, behind a colon, the text of a file. Of the
//! file's first nest, of one to three loops, it writes what following the chunk's instances in original order gives, what a
//! comparison of the chunk's plain run gives, and whether the two agree. It stands on `compare` and `follow_chunk`, whose
//! calls it shows.
#![tactic(auto)]

mod answer;
mod instances;
mod profiled;
mod runs;
mod shown;
mod tasks;

use std::io;
use std::io::{BufRead, BufReader};

fn main(rt: HostRuntime) -> io::Result<()> {
    let alloc = rt.alloc();
    for line in BufReader::new(alloc, rt.reader())?.lines(alloc) {
        let text = answer::answer(alloc, line?.as_str())?;
        println!(rt; "{text}")?;
    }
    Ok(())
}
