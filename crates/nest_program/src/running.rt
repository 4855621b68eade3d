//! A run over a reader and a writer, by a crew of threads.

ghost use Rattle.std.specs.Prelude.{◌≡◌, ◌≢◌, [], map, string_bytes};
ghost use Rattle.std.specs.IoError.{error_kind};
ghost use Rattle.std.specs.declared.io.ErrorKind.TheVariants.{OutOfMemory};
ghost use Rattle.nest_top.specs.Calls.{IsCall};
ghost use Rattle.nest_top.specs.Exits.{exit_code};
ghost use Rattle.nest_top.specs.declared.status.Status.{Status};

use crew::{Gate, OpenGate, ThreadCrew};
use nest_io::{StdSink, StdSource};
use nest_top::nest_exit;
use std::alloc::Global;
use std::io;
use std::io::{Read, Write};
use std::thread::Threads;

/// No memory was found for the arguments.
const NO_MEMORY: u8 = 5;

/// The arguments can't be had, and not for want of memory.
const NO_ARGUMENTS: u8 = 65;

/// What a run of the program leaves: the exit of its status, what is left of its reader, its writer, and its crew with
/// all that was handed to it.
#[derive(Drop)]
pub struct Finished<T, R: Read, W: Write> {
    pub exit: u8,
    pub source: StdSource<R>,
    pub sink: StdSink<W>,
    pub crew: ThreadCrew<T, OpenGate>,
}

/// Does what the arguments ask for over a reader and a writer, by the program's crew (`nest_top::nest_run`).
///
/// The exit is that of the status. Where the reader and the writer tell their bytes, they are those of this run, and the
/// crew was handed the record of the journey of this text.
pub fn run<T: Threads + Sync, R: Read, W: Write>(
    rt: T,
    alloc: Global,
    words: &[String],
    reader: R,
    writer: W,
) -> Finished<T, R, W>
    ensures { (status : Status) × (result.exit ≡ exit_code status) × IsCall (map string_bytes words.now)
        (record { bytes = λ s. R.remaining s.0; faults = λ s. s.1; before = (reader, 0); after = result.source })
        (record { bytes = λ s. W.contents s.0; faults = λ s. s.1; before = (writer, 0); after = result.sink })
        [] result.crew.list.items status }
{
    let mut source = StdSource::new(reader);
    let mut sink = StdSink::new(writer);
    let mut crew = crew_behind(rt, alloc, OpenGate);
    let exit = nest_exit(alloc, words, &mut source, &mut sink, &mut crew);
    Finished {
        exit,
        source,
        sink,
        crew,
    }
}

/// The crew of the program, behind a gate that each worker passes before its first turn; nothing was handed to it. The
/// gate of `run` is open.
pub fn crew_behind<T: Threads + Sync, G: Gate>(rt: T, alloc: Global, gate: G) -> ThreadCrew<T, G>
    ensures { result.list.items ≡ [] }
{
    ThreadCrew::new(rt, alloc, gate)
}

/// The exit where the arguments can't be had: 5 where no memory was found for them, and 65 for every other cause.
pub fn exit_without_arguments(error: &io::Error) -> u8
    ensures memory { error_kind error.now ≡ OutOfMemory → result ≡ 5 }
    ensures other { error_kind error.now ≢ OutOfMemory → result ≡ 65 }
{
    match error.kind() {
        io::ErrorKind::OutOfMemory => NO_MEMORY,
        _ => NO_ARGUMENTS,
    }
}
