//! The edge to std: its readers and writers as a source and a sink.
ghost use Rattle.std.specs.Prelude.{◌≡◌, ◌<◌, ◌≤◌, ◌↔◌, ℕ, List, [], Option, length, take, IfOk, IfSome, OnOk, OnErr};
ghost use Rattle.nest_io.specs.Bytes.{Takes, Appends};
ghost use Rattle.std.specs.Io.KnownBytes.{ReadConsumes, WriteAppends};
ghost use Rattle.nest_io.specs.Faults.{Rose, next_count};

use crate::{Failed, Sink, Source};
use std::io::{Read, Write};
use std::marker::Model;

/// A reader of std as a source. It tells the bytes that std says are left of the reader, and counts each `Err` of the
/// reader as a fault.
#[derive(Drop)]
pub struct StdSource<R: Read> {
    reader: R,
    faults: u64,
}

impl<R: Read> Model for StdSource<R> {
    ghost Value = { R × ℕ };

    ghost view = { λ s. (s.reader, s.faults) };
}

impl<R: Read> StdSource<R> {
    /// A source over this reader, with no faults yet.
    pub fn new(reader: R) -> StdSource<R>
        ensures { result ≡ (reader, 0) }
    {
        StdSource { reader, faults: 0 }
    }
}

impl<R: Read> Source for StdSource<R> {
    ghost left = { λ s. R.remaining s.0 };

    ghost faults = { λ s. s.1 };

    fn read(&mut self, into: &mut [u8]) -> Result<usize, Failed>
        // The bytes are the reader's, where std knows them.
        ensures bytes { ReadConsumes (R.remaining self.old.0) (R.remaining self.new.0) result into.new }
        ensures ok { OnOk result (self.new.1 ≡ self.old.1) }
        ensures err { OnErr result (self.new.1 ≡ next_count self.old.1) }

        // What every source ensures.
        ensures room { IfOk result (λ count. count ≤ length into.new) }
        ensures taken { IfOk result (λ count. Takes (R.remaining self.old.0) (R.remaining self.new.0) (take count into.new)) }
        ensures end { IfOk result (λ count. 0 < length into.new → IfSome (R.remaining self.old.0) (λ bytes. (count ≡ 0) ↔ (bytes ≡ []))) }
        ensures nothing { OnErr result (Takes (R.remaining self.old.0) (R.remaining self.new.0) []) }
        ensures cause { OnErr result (Rose self.old.1 self.new.1) }
        ensures never_falls { self.old.1 ≤ self.new.1 }
    {
        match self.reader.read(into) {
            Ok(count) => Ok(count),
            Err(_) => {
                self.faults = self.faults.saturating_add(1);
                Err(Failed)
            }
        }
    }
}

/// A writer of std as a sink. It tells the bytes that std says the writer holds, and counts as a fault each `Err` of the
/// writer and each write that takes nothing of a piece that isn't empty.
#[derive(Drop)]
pub struct StdSink<W: Write> {
    writer: W,
    faults: u64,
}

impl<W: Write> Model for StdSink<W> {
    ghost Value = { W × ℕ };

    ghost view = { λ s. (s.writer, s.faults) };
}

impl<W: Write> StdSink<W> {
    /// A sink over this writer, with no faults yet.
    pub fn new(writer: W) -> StdSink<W>
        ensures { result ≡ (writer, 0) }
    {
        StdSink { writer, faults: 0 }
    }
}

impl<W: Write> Sink for StdSink<W> {
    ghost held = { λ s. W.contents s.0 };

    ghost faults = { λ s. s.1 };

    fn write(&mut self, piece: &[u8]) -> Result<usize, Failed>
        // The bytes go to the writer, where std knows what it holds.
        ensures bytes { WriteAppends (W.contents self.old.0) (W.contents self.new.0) result piece.now }
        ensures ok { OnOk result (self.new.1 ≡ self.old.1) }
        ensures err { OnErr result (self.new.1 ≡ next_count self.old.1) }

        // What every sink ensures.
        ensures most { IfOk result (λ count. count ≤ length piece.now) }
        ensures least { IfOk result (λ count. 0 < length piece.now → 1 ≤ count) }
        ensures put { IfOk result (λ count. Appends (W.contents self.old.0) (W.contents self.new.0) (take count piece.now)) }
        ensures nothing { OnErr result (Appends (W.contents self.old.0) (W.contents self.new.0) []) }
        ensures cause { OnErr result (Rose self.old.1 self.new.1) }
        ensures never_falls { self.old.1 ≤ self.new.1 }
    {
        match self.writer.write(piece) {
            Ok(count) if count > 0 || piece.is_empty() => Ok(count),
            _ => {
                self.faults = self.faults.saturating_add(1);
                Err(Failed)
            }
        }
    }
}
