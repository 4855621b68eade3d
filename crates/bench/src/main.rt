//! What bench/ measures. Each line of the input names a piece of work, and the program writes what comes of it, which
//! depends on no time: `schedule` places a square of points; `launch TRIP TURNS ROUNDS` asks so often whether a chunk
//! may be launched, and writes how many instances were checked; `fit STEP` fits a million observations, and writes the
//! coefficients of the line. It stands on `transform`, `domain` and `profile`, and nothing stands on it.
#![tactic(auto)]

mod fits;
mod launches;
mod schedules;

use std::io;
use std::io::{BufRead, BufReader};

fn main(rt: HostRuntime) -> io::Result<()> {
    let alloc = rt.alloc();
    for line in BufReader::new(alloc, rt.reader())?.lines(alloc) {
        let line = line?;
        let mut words = line.as_str().split(' ');
        let kind = words.next().unwrap_or("");
        let mut numbers = words.map(|word| word.parse::<u16>().unwrap_or(0));
        let first = numbers.next().unwrap_or(0);
        let second = numbers.next().unwrap_or(0);
        let third = numbers.next().unwrap_or(0);
        match kind {
            "schedule" => println!(rt; "{}", schedules::scheduled())?,
            "launch" => {
                let instances = launches::launched(alloc, first, second, third)?;
                println!(rt; "{instances}")?;
            }
            "fit" => {
                if let Some(line) = fits::fitted(alloc, i64::from(first)) {
                    let [outer, inner] = line;
                    println!(rt; "{outer} {inner}")?;
                }
            }
            _ => println!(rt; "no such work: {kind}")?,
        }
    }
    Ok(())
}
