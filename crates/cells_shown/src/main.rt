//! Writes the cells of three small chunks: of each cell its runs, and how many instances its walk gives. It stands on
//! `skeletons`, and is there to be compared with the list of each chunk, written out apart from it.
#![tactic(auto)]

mod nests;
mod texts;

use crate::nests::two_loops;
use crate::texts::chunk_text;
use affine::Form;
use arrayvec::ArrayVec;
use domain::Chunk;
use nest_lang::Command;
use std::alloc::{AllocError, Global};
use std::io;

/// 18 times the first counter and once the second, and 19.
const ROW_MAJOR: Form<2> = Form {
    coef: [18, 1],
    cst: 19,
};

fn main(rt: HostRuntime) -> io::Result<()> {
    let alloc = rt.alloc();
    println!(rt; "{}", sweep_text(alloc)?)?;
    println!(rt; "{}", triangle_text(alloc)?)?;
    println!(rt; "{}", steep_text(alloc)?)
}

/// 12 turns of a sweep over 16 by 16, in tiles with a wave.
fn sweep_text(alloc: Global) -> Result<String, AllocError> {
    let trip = Form {
        coef: [0, 0],
        cst: 16,
    };
    let pred = two_loops(alloc, trip, ROW_MAJOR)?;
    let mut rows = ArrayVec::new();
    rows.push(1);
    rows.push(2);
    let script = [
        Command::Tile(1, 4),
        Command::Tile(2, 4),
        Command::Wave(rows),
    ];
    let chunk = Chunk {
        first: 4,
        turns: 12,
    };
    chunk_text(alloc, &pred, &script, chunk)
}

/// 5 turns of a triangle, in which the first row leads.
fn triangle_text(alloc: Global) -> Result<String, AllocError> {
    let trip = Form {
        coef: [-1, 0],
        cst: 7,
    };
    let pred = two_loops(alloc, trip, ROW_MAJOR)?;
    let script = [Command::Seq(1), Command::Skew(2, 1, 1), Command::Tile(2, 4)];
    let chunk = Chunk { first: 2, turns: 5 };
    chunk_text(alloc, &pred, &script, chunk)
}

/// The turn 2^32 of a loop whose trip rises by 2^31 from turn to turn and is 20 there: a row of the inner block is too
/// wide from the start.
fn steep_text(alloc: Global) -> Result<String, AllocError> {
    let trip = Form {
        coef: [1 << 31, 0],
        cst: 20 - (1 << 62) - (1 << 62),
    };
    let line = Form {
        coef: [0, 1],
        cst: 0,
    };
    let pred = two_loops(alloc, trip, line)?;
    let script = [Command::Tile(1, 4), Command::Tile(2, 4)];
    let chunk = Chunk {
        first: 1 << 32,
        turns: 1,
    };
    chunk_text(alloc, &pred, &script, chunk)
}
