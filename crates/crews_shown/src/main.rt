//! Shows that the answer of a journey is the same text under every crew. Its input is cases, each a line of words, a
//! text, and a line with a dot; a line with two dots ends those of the cases that take long. Of each it writes the
//! answer as workers that run in line give it, and which other crews give the same. Three tables follow: of a text that
//! is too long, and two about one nest whose predictions fail twice in a chunk. It stands on `nest_top` and `crew`.
#![tactic(auto)]

mod cases;
mod crews;
mod runs;
mod twice;

use crate::cases::{OTHERS, THREADS, show_blanks, show_case};
use crate::twice::{show_handed, show_table};
use std::io;
use std::io::Read;

fn main(rt: HostRuntime) -> io::Result<()> {
    let mut cases = String::new(rt.alloc());
    rt.reader().read_to_string(&mut cases)?;
    let cases = cases.as_str();
    let (long, others) = cases.split_once("\n..\n").unwrap_or(("", cases));
    for case in long.split("\n.\n") {
        show_case(&rt, case, &THREADS)?;
    }
    for case in others.split("\n.\n") {
        show_case(&rt, case, &OTHERS)?;
    }
    show_blanks(&rt)?;
    show_table(&rt)?;
    show_handed(&rt)
}
