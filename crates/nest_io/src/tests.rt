//! Sources and sinks over memory: pieces of every size, a text that is cut, and faults.

use super::*;
use std::alloc::{AllocError, Global};
use std::io;
use std::io::{Read, Write};
use std::test::Fail;

const TEXT: &[u8] = b"ended\nsteps 0\n";

// Sources and sinks that give and take 1, 2, 3 bytes at a time, and all at once.
const SIZES: [usize; 4] = [1, 2, 3, 100];

/// Copies what a source has left, and says whether neither failed.
fn copy<S: Source, K: Sink>(alloc: Global, source: &mut S, sink: &mut K) -> bool {
    match read_all(alloc, source, 1000) {
        Ok(taken) => write_all(sink, taken.bytes.as_slice()).is_ok(),
        Err(_) => false,
    }
}

#[test]
fn pieces_of_any_size_give_the_same_bytes(rt: HostRuntime) -> Result<(), Fail> {
    let alloc = rt.alloc();
    for size in SIZES {
        let mut source = MemSource::new(TEXT.to_vec(alloc)?, size, Vec::new(alloc));
        let mut sink = MemSink::new(alloc, 14, size, Vec::new(alloc))?;
        assert!(rt; copy(alloc, &mut source, &mut sink), "{size} bytes");
        assert_eq!(rt; sink.bytes(), TEXT, "{size} bytes");
    }
    Ok(())
}

#[test]
fn a_text_over_the_limit_is_cut_behind_one_byte_more(rt: HostRuntime) -> Result<(), Fail> {
    let alloc = rt.alloc();
    for (most, taken, whole, rest) in [
        (0, "e", false, "nded"),
        (3, "ende", false, "d"),
        (4, "ended", false, ""),
        (5, "ended", true, ""),
        (usize::MAX, "ended", true, ""),
    ] {
        let mut source = MemSource::new(b"ended".to_vec(alloc)?, 2, Vec::new(alloc));
        let first = read_all(alloc, &mut source, most)?;
        assert_eq!(rt; first.bytes.as_slice(), taken.as_bytes(), "most {most}");
        assert_eq!(rt; first.whole, whole, "most {most}");
        let second = read_all(alloc, &mut source, 100)?;
        assert_eq!(rt; second.bytes.as_slice(), rest.as_bytes(), "most {most}");
        assert!(rt; second.whole, "most {most}");
    }
    Ok(())
}

// 14 bytes by 4 are five reads, of which the last tells the end.
#[test]
fn a_source_that_fails_at_its_kth_read_is_a_fault(rt: HostRuntime) -> Result<(), Fail> {
    let alloc = rt.alloc();
    for k in 1..7 {
        let mut source = MemSource::new(TEXT.to_vec(alloc)?, 4, vec![in alloc; k]?);
        let mut sink = MemSink::new(alloc, 14, 14, Vec::new(alloc))?;
        let whole = k == 6;
        assert_eq!(rt; copy(alloc, &mut source, &mut sink), whole, "read {k}");
        assert_eq!(rt; sink.bytes(), if whole { TEXT } else { b"" }, "read {k}");
    }
    Ok(())
}

#[test]
fn a_sink_that_fails_at_its_kth_write_keeps_what_came_before(rt: HostRuntime) -> Result<(), Fail> {
    let alloc = rt.alloc();
    for k in 1..=TEXT.len() {
        let mut sink = MemSink::new(alloc, 100, 1, vec![in alloc; k as u64]?)?;
        assert_eq!(rt; write_all(&mut sink, TEXT), Err(Failed), "write {k}");
        assert_eq!(rt; sink.bytes(), &TEXT[..k - 1], "write {k}");
    }
    let mut sink = MemSink::new(alloc, 100, 5, vec![in alloc; 3]?)?;
    assert_eq!(rt; write_all(&mut sink, TEXT), Err(Failed));
    assert_eq!(rt; sink.bytes(), b"ended\nstep".as_slice());
    Ok(())
}

#[test]
fn a_full_sink_fails(rt: HostRuntime) -> Result<(), Fail> {
    let alloc = rt.alloc();
    let mut sink = MemSink::new(alloc, 5, 3, Vec::new(alloc))?;
    assert_eq!(rt; sink.write(b"ended\n"), Ok(3));
    assert_eq!(rt; sink.write(b"ed\n"), Ok(2));
    assert_eq!(rt; sink.write(b"\n"), Err(Failed));
    assert_eq!(rt; sink.bytes(), b"ended".as_slice());
    assert_eq!(rt;
        MemSink::new(alloc, usize::MAX, 1, Vec::new(alloc)).err(),
        Some(AllocError)
    );
    Ok(())
}

// A stream of std that fails at each call.
#[derive(Drop)]
struct Broken;

impl Read for Broken {
    fn read(&mut self, _: &mut [u8]) -> io::Result<usize> {
        Err(io::ErrorKind::BrokenPipe.into())
    }
}

impl Write for Broken {
    fn write(&mut self, _: &[u8]) -> io::Result<usize> {
        Err(io::ErrorKind::BrokenPipe.into())
    }

    fn flush(&mut self) -> io::Result<()> {
        Ok(())
    }
}

#[test]
fn readers_and_writers_of_std(rt: HostRuntime) -> Result<(), Fail> {
    let alloc = rt.alloc();

    let mut held = Vec::new(alloc);
    let mut source = StdSource::new(TEXT);
    let mut sink = StdSink::new(&mut held);
    assert!(rt; copy(alloc, &mut source, &mut sink));
    assert_eq!(rt; held.as_slice(), TEXT);

    // A writer that is full takes no bytes.
    let mut room = [0u8; 5];
    let mut full = StdSink::new(room.as_mut_slice());
    assert_eq!(rt; write_all(&mut full, TEXT), Err(Failed));
    assert_eq!(rt; full.write(b""), Ok(0));
    assert_eq!(rt; room.as_slice(), b"ended".as_slice());

    let mut broken = StdSource::new(Broken);
    assert_eq!(rt; read_all(alloc, &mut broken, 9).err(), Some(ReadEnd::Fault));
    let mut broken = StdSink::new(Broken);
    assert_eq!(rt; write_all(&mut broken, TEXT), Err(Failed));
    assert_eq!(rt; write_all(&mut broken, b""), Ok(()));
    Ok(())
}
