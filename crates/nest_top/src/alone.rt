//! The modes that need no crew: `plain`, `check` and `deps`, and arguments that are no invocation.

ghost use Rattle.std.specs.Prelude.{◌≡◌, IfOk, map, string_bytes, true, false};
ghost use Rattle.nest_grammar.specs.Contents.{reading};
ghost use Rattle.nest_top.specs.Answers.{AnswersFile, AnswersReading, AreInRange};
ghost use Rattle.nest_top.specs.Answers as answers;
ghost use Rattle.nest_top.specs.Runs.{IsAlone, IsMadeAlone};

use crate::answer::{Answer, refused, usage};
use crate::check::check;
use crate::deps::deps;
use crate::plain::plain;
use crate::status::Status;
use crate::unanswered::Unanswered;
use command_line::{Invocation, Mode, invocation_of};
use nest_io::{Sink, Source, read_all};
use nest_text::{MOST_BYTES, NestFile, ReadRefusal, read_nest};
use std::alloc::{AllocError, Global};

/// Does the whole of the modes `plain`, `check` and `deps` and of arguments that are no invocation, as `nest_run` does,
/// and returns: it uses no crew. None comes exactly where the arguments ask for a journey, in mode `run` or `gen`;
/// nothing was then read or written. Want of memory may come in its place.
pub fn nest_alone<S: Source, K: Sink>(
    alloc: Global,
    words: &[String],
    source: &mut S,
    sink: &mut K,
) -> Option<Status>
    ensures { IsAlone (map string_bytes words.now)
        (record { bytes = S.left; faults = S.faults; before = source.old; after = source.new })
        (record { bytes = K.held; faults = K.faults; before = sink.old; after = sink.new }) result }
{
    match prepare(alloc, words, source) {
        Ok(Some(answer)) => Some(answer.put(sink)),
        Ok(None) => None,
        Err(why) => Some(why.status()),
    }
}

/// Makes the answer, unless the arguments ask for a journey.
fn prepare<S: Source>(
    alloc: Global,
    words: &[String],
    source: &mut S,
) -> Result<Option<Answer>, Unanswered>
    ensures { IsMadeAlone (map string_bytes words.now)
        (record { bytes = S.left; faults = S.faults; before = source.old; after = source.new }) result }
{
    let Some(invocation) = invocation_of(alloc, words)? else {
        return Ok(Some(usage(alloc)?));
    };
    if has_journey(invocation.mode) {
        return Ok(None);
    }
    let taken = read_all(alloc, source, MOST_BYTES)?;
    Ok(Some(answer_text(alloc, &invocation, taken.bytes.as_slice())?))
}

/// Whether a mode runs a journey.
fn has_journey(mode: Mode) -> bool
    ensures { result ≡ answers.has_journey mode }
{
    matches!(mode, Mode::Run | Mode::Gen(_))
}

/// The answer of an invocation without a journey to a text.
fn answer_text(alloc: Global, invocation: &Invocation, text: &[u8]) -> Result<Answer, AllocError>
    requires mode { answers.has_journey invocation.now.mode ≡ false }
    requires options { AreInRange invocation.now.options }
    ensures { IfOk result (λ answer. AnswersReading invocation.now.mode invocation.now.options (reading text.now) answer.bytes.items answer.status) }
{
    match read_nest(alloc, text) {
        Ok(file) => answer_file(alloc, invocation, &file),
        Err(ReadRefusal::Text(fault)) => refused(alloc, &fault),
        Err(ReadRefusal::NoMemory) => Err(AllocError),
    }
}

/// The answer of an invocation without a journey to a file.
fn answer_file(
    alloc: Global,
    invocation: &Invocation,
    file: &NestFile,
) -> Result<Answer, AllocError>
    requires mode { answers.has_journey invocation.now.mode ≡ false }
    requires options { AreInRange invocation.now.options }
    ensures { IfOk result (λ answer. AnswersFile invocation.now.mode invocation.now.options file.now answer.bytes.items answer.status) }
{
    match invocation.mode {
        Mode::Plain => plain(alloc, file, invocation.options.steps),
        Mode::Check => check(alloc, file),
        Mode::Deps => deps(alloc, file, &invocation.options),
        Mode::Run | Mode::Gen(_) => unreachable!(),
    }
}
