//! Runs over a text and a vector: a journey that ends in a trap, and a text that has a fault; and arguments that can't be
//! had. What is written was taken from an independent implementation.

use super::*;
use std::alloc::Global;
use std::io;
use std::test::Fail;
use std::thread::Threads;

const TRAP: &[u8] = b"nest 1 memory 80 for i = 0 below 100 { [i] = 5 }";

const TRAPPED: &str = "trapped outside 80\nwords 0 79 5\nsteps 82\nprofile 0 turns 4\n\
    commit 4 turns 32 candidate 1 instances 32 phases 1 tiles 5 steps 32\n\
    commit 36 turns 32 candidate 1 instances 32 phases 1 tiles 5 steps 32\n\
    held 68 turns 32 at pre1 (80) store 1 address 80\nplain 68 turns 12\n";

const FAULT: &[u8] = b"nest 1 memory 80 for i = 0 below 100 { [j] = 5 }";

/// The exit of mode `run` on a text, whose answer goes into `written`.
fn exit_of<R: Threads + Sync + Alloc<A = Global>>(
    rt: &R,
    text: &[u8],
    written: &mut Vec<u8>,
) -> Result<u8, Fail> {
    let alloc = rt.alloc();
    let words = vec![in alloc; String::from_str(alloc, "run")?]?;
    Ok(run(rt, alloc, words.as_slice(), text, written).exit)
}

#[test]
fn the_exit_and_the_bytes_are_those_of_the_answer(rt: HostRuntime) -> Result<(), Fail> {
    for (text, exit, answer) in [(TRAP, 10, TRAPPED), (FAULT, 2, "refused 40 Unknown\n")] {
        let mut written = Vec::new(rt.alloc());
        assert_eq!(rt; exit_of(&rt, text, &mut written)?, exit);
        assert_eq!(rt; written.as_slice(), answer.as_bytes());
    }
    Ok(())
}

#[test]
fn arguments_that_cannot_be_had(rt: HostRuntime) -> Result<(), Fail> {
    assert_eq!(rt;
        exit_without_arguments(&io::ErrorKind::OutOfMemory.into()),
        5
    );
    assert_eq!(rt;
        exit_without_arguments(&io::ErrorKind::InvalidData.into()),
        65
    );
    Ok(())
}
