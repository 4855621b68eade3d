//! Runs of the program over memory.

use crate::crews::{Kind, ShownCrew};
use crew::Handed;
use nest_io::{MemSink, MemSource};
use nest_top::{Status, nest_run};
use std::alloc::{AllocError, Global};
use std::thread::Threads;

/// Room for the bytes of an answer.
const ROOM: usize = 1 << 16;

/// The most bytes that are read or written at once.
const PIECE: usize = 1 << 12;

/// What a run left: its status, a sink with its answer, and what its crew was handed.
#[derive(Drop)]
pub struct Ran {
    pub status: Status,
    pub sink: MemSink,
    pub handed: Vec<Handed>,
}

/// Runs the program on these words and this text, under a crew of this kind.
pub fn run<R: Threads + Sync + Alloc<A = Global>>(
    rt: &R,
    kind: Kind,
    words: &[String],
    text: &str,
) -> Result<Ran, AllocError> {
    let alloc = rt.alloc();
    let mut source = MemSource::new(text.as_bytes().to_vec(alloc)?, PIECE, Vec::new(alloc));
    let mut sink = MemSink::new(alloc, ROOM, PIECE, Vec::new(alloc))?;
    let mut crew = ShownCrew::new(rt, alloc, kind)?;
    let status = nest_run(alloc, words, &mut source, &mut sink, &mut crew);
    let handed = crew.into_list();
    Ok(Ran {
        status,
        sink,
        handed,
    })
}

/// Whether the same phases were handed over, with as many workers and tiles. Workers of a phase whose prediction failed
/// stop where they see that it did, so their steps may differ.
pub fn same_phases(some: &[Handed], others: &[Handed]) -> bool {
    some.len() == others.len()
        && some
            .iter()
            .zip(others)
            .all(|(one, other)| same_phase(one, other))
}

fn same_phase(one: &Handed, other: &Handed) -> bool {
    one.first == other.first
        && one.phase == other.phase
        && one.workers == other.workers
        && one.tiles == other.tiles
}
