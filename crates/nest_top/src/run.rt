//! The call: an answer is made, and then written.

ghost use Rattle.std.specs.Prelude.{◌≡◌, map, string_bytes};
ghost use Rattle.nest_top.specs.Answers.{AsksForJourney};
ghost use Rattle.nest_top.specs.Calls.{IsCall, IsCallMade};
ghost use Rattle.nest_top.specs.Exits.{exit_code};

use crate::alone::nest_alone;
use crate::answer::Answer;
use crate::generated::generated;
use crate::speculative::speculative;
use crate::status::Status;
use crate::unanswered::Unanswered;
use command_line::{Mode, invocation_of};
use crew::Crew;
use nest_io::{Sink, Source, read_all};
use nest_text::MOST_BYTES;
use std::alloc::Global;

/// Does what the arguments ask for, as `nest_run`, and gives the exit of its status.
pub fn nest_exit<S: Source, K: Sink, C: Crew>(
    alloc: Global,
    words: &[String],
    source: &mut S,
    sink: &mut K,
    crew: &mut C,
) -> u8
    ensures { (status : Status) × (result ≡ exit_code status) × IsCall (map string_bytes words.now)
        (record { bytes = S.left; faults = S.faults; before = source.old; after = source.new })
        (record { bytes = K.held; faults = K.faults; before = sink.old; after = sink.new })
        (C.handed crew.old) (C.handed crew.new) status }
{
    nest_run(alloc, words, source, sink, crew).exit()
}

/// Reads a text from the source where the arguments are an invocation that reads one, and puts the answer into the sink
/// (docs/DEFINITIONS.md, Answers). The order is arguments, source, text, run, sink: the whole answer is made
/// before the first write.
///
/// `Usage` and mode `gen` read nothing. `SourceFault` and `SinkFault` come only where that object's count of faults
/// rose in this call. After `SourceFault` and `NoMemory` the sink got nothing, after `SinkFault` a front
/// of the answer's bytes; in every other case it got them all, and the status is the answer's.
///
/// Each phase of each chunk that a journey launches is handed to the crew, which may wait for its workers.
pub fn nest_run<S: Source, K: Sink, C: Crew>(
    alloc: Global,
    words: &[String],
    source: &mut S,
    sink: &mut K,
    crew: &mut C,
) -> Status
    ensures { IsCall (map string_bytes words.now)
        (record { bytes = S.left; faults = S.faults; before = source.old; after = source.new })
        (record { bytes = K.held; faults = K.faults; before = sink.old; after = sink.new })
        (C.handed crew.old) (C.handed crew.new) result }
{
    if let Some(status) = nest_alone(alloc, words, source, sink) {
        return status;
    }
    match prepare(alloc, words, source, crew) {
        Ok(answer) => answer.put(sink),
        Err(why) => why.status(),
    }
}

/// Makes the answer of arguments that ask for a journey.
fn prepare<S: Source, C: Crew>(
    alloc: Global,
    words: &[String],
    source: &mut S,
    crew: &mut C,
) -> Result<Answer, Unanswered>
    requires { AsksForJourney (map string_bytes words.now) }
    ensures { IsCallMade (map string_bytes words.now)
        (record { bytes = S.left; faults = S.faults; before = source.old; after = source.new })
        (C.handed crew.old) (C.handed crew.new) result }
{
    let Some(invocation) = invocation_of(alloc, words)? else {
        unreachable!()
    };
    match invocation.mode {
        Mode::Run => {
            let taken = read_all(alloc, source, MOST_BYTES)?;
            let text = taken.bytes.as_slice();
            Ok(speculative(alloc, &invocation.options, text, crew)?)
        }
        Mode::Gen(recipe) => Ok(generated(alloc, &invocation.options, recipe, crew)?),
        Mode::Plain | Mode::Check | Mode::Deps => unreachable!(),
    }
}
