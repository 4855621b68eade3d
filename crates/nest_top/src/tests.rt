//! Sources and sinks that give and take a few bytes at a time, or fail. Arguments and texts with their answers stand in
//! cases/, and the program is run on them.

ghost use Rattle.std.specs.Prelude.{◌≤◌};

use super::*;
use crew::{Crew, LineCrew, OpenGate, ThreadCrew};
use nest_io::{MemSink, MemSource};
use std::alloc::Global;
use std::test::Fail;

const COPY: &[u8] = b"nest 1 memory 300 for i = 0 below 100 { [200 + i] = [i] + 1 }";

const COPIED: &[u8] = b"ended\nwords 200 299 1\nsteps 101\n";

const USAGE: &[u8] =
    b"usage: nestrun plain|run|check|deps|gen [SEED KIND SIZE] [--workers N] [--chunk N] [--sample N] [--steps N]\n";

const EMPTY: &[u8] = b"nest 1 memory 4 for i = 0 below 0 { [i] = 1 }";

// A run of the program over memory: its status, and what the sink holds.
#[derive(Drop)]
struct Ran {
    status: Status,
    sink: MemSink,
}

fn run<C: Crew>(
    alloc: Global,
    crew: &mut C,
    words: &[&str],
    text: &[u8],
    most: usize,
    failing_read: Option<u64>,
    failing_write: Option<u64>,
) -> Result<Ran, Fail>
    requires { 1 ≤ most }
{
    let mut owned = Vec::new(alloc);
    for word in words {
        owned.push(String::from_str(alloc, word)?)?;
    }
    let mut reads = Vec::new(alloc);
    if let Some(number) = failing_read {
        reads.push(number)?;
    }
    let mut writes = Vec::new(alloc);
    if let Some(number) = failing_write {
        writes.push(number)?;
    }
    let mut source = MemSource::new(text.to_vec(alloc)?, most, reads);
    let mut sink = MemSink::new(alloc, 1000, most, writes)?;
    let status = nest_run(alloc, owned.as_slice(), &mut source, &mut sink, crew);
    Ok(Ran { status, sink })
}

#[test]
fn pieces_of_any_size_give_the_same_answer(rt: HostRuntime) -> Result<(), Fail> {
    let alloc = rt.alloc();
    let mut crew = LineCrew::new(&rt, alloc);
    for most in 1..4 {
        let run = run(alloc, &mut crew, &["plain"], COPY, most, None, None)?;
        assert_eq!(rt; run.status, Status::Ended, "{most} bytes");
        assert_eq!(rt; run.sink.bytes(), COPIED, "{most} bytes");
    }
    Ok(())
}

// The 61 bytes by 7 are nine reads, and a tenth that meets the end.
#[test]
fn a_source_that_fails_at_its_kth_read_leaves_the_sink_empty(rt: HostRuntime) -> Result<(), Fail> {
    let alloc = rt.alloc();
    let mut crew = LineCrew::new(&rt, alloc);
    for read in 1..11 {
        let run = run(alloc, &mut crew, &["plain"], COPY, 7, Some(read), None)?;
        assert_eq!(rt; run.status, Status::SourceFault, "read {read}");
        assert!(rt; run.sink.bytes().is_empty(), "read {read}");
    }
    let whole = run(alloc, &mut crew, &["plain"], COPY, 7, Some(11), None)?;
    assert_eq!(rt; whole.status, Status::Ended);
    Ok(())
}

// The source would fail at its first read.
#[test]
fn words_that_are_no_command_read_nothing(rt: HostRuntime) -> Result<(), Fail> {
    let alloc = rt.alloc();
    let mut crew = LineCrew::new(&rt, alloc);
    let run = run(alloc, &mut crew, &["--help"], COPY, 7, Some(1), None)?;
    assert_eq!(rt; run.status, Status::Usage);
    assert_eq!(rt; run.sink.bytes(), USAGE);
    Ok(())
}

const GENERATED: &[u8] = b"gen 0 copy 2
ended
steps 129
profiles 1 unfits 0 illegals 0 helds 0 commits 4 rollbacks 0 plains 0
sum 896
";

// The source would fail at its first read.
#[test]
fn a_generated_file_under_two_crews(rt: HostRuntime) -> Result<(), Fail> {
    let alloc = rt.alloc();
    let words = ["gen", "0", "copy", "2"];
    let mut crew = LineCrew::new(&rt, alloc);
    let in_line = run(alloc, &mut crew, &words, COPY, 7, Some(1), None)?;
    assert_eq!(rt; in_line.status, Status::Ended);
    assert_eq!(rt; in_line.sink.bytes(), GENERATED);
    let mut crew = ThreadCrew::new(&rt, alloc, OpenGate);
    let beside = run(alloc, &mut crew, &words, COPY, 7, Some(1), None)?;
    assert_eq!(rt; beside.status, Status::Ended);
    assert_eq!(rt; beside.sink.bytes(), GENERATED);
    Ok(())
}

#[test]
fn a_sink_that_fails_at_its_kth_write_has_a_front(rt: HostRuntime) -> Result<(), Fail> {
    let alloc = rt.alloc();
    let mut crew = LineCrew::new(&rt, alloc);
    for (index, _) in COPIED.iter().enumerate() {
        let run = run(
            alloc,
            &mut crew,
            &["plain"],
            COPY,
            1,
            None,
            Some(index as u64 + 1),
        )?;
        assert_eq!(rt; run.status, Status::SinkFault, "write {index}");
        assert_eq!(rt; run.sink.bytes(), &COPIED[..index], "write {index}");
    }
    Ok(())
}

#[test]
fn a_second_read_and_a_third_write_that_fail(rt: HostRuntime) -> Result<(), Fail> {
    let alloc = rt.alloc();
    let mut crew = LineCrew::new(&rt, alloc);
    for mode in ["plain", "run"] {
        let unread = run(alloc, &mut crew, &[mode], EMPTY, 40, Some(2), None)?;
        assert_eq!(rt; unread.status, Status::SourceFault, "{mode}");
        assert!(rt; unread.sink.bytes().is_empty(), "{mode}");
        let unwritten = run(alloc, &mut crew, &[mode], EMPTY, 5, None, Some(3))?;
        assert_eq!(rt; unwritten.status, Status::SinkFault, "{mode}");
        assert_eq!(rt; unwritten.sink.bytes(), b"ended\nstep".as_slice(), "{mode}");
    }
    Ok(())
}
