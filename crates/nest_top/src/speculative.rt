//! Mode `run`: the outcome of the run of a file, and the lines of its journey.

ghost use Rattle.std.specs.Prelude.{IfOk};
ghost use Rattle.nest_grammar.specs.Contents.{reading};
ghost use Rattle.command_line.specs.declared.invocation.Mode.TheVariants.{Run};
ghost use Rattle.nest_top.specs.Answers.{AnswersReading, AreInRange, IsReportOf};
ghost use Rattle.nest_top.specs.HandedOver.{FileHanded, ReadingHanded};

use crate::answer::{Answer, refused};
use crate::options::journey_options;
use crate::plain::status_of;
use command_line::Options;
use controller::journey;
use crew::Crew;
use nest_text::{NestFile, ReadRefusal, read_nest};
use report::{lines_text, outcome_text};
use std::alloc::{AllocError, Global};

/// The answer of mode `run` to a text, with these options.
pub(crate) fn speculative<C: Crew>(
    alloc: Global,
    options: &Options,
    text: &[u8],
    crew: &mut C,
) -> Result<Answer, AllocError>
    requires { AreInRange options.now }
    ensures answer { IfOk result (λ answer. AnswersReading Run options.now (reading text.now) answer.bytes.items answer.status) }
    ensures handed { ReadingHanded options.now (reading text.now) (C.handed crew.old) (C.handed crew.new) result }
{
    match read_nest(alloc, text) {
        Ok(file) => report(alloc, options, &file, crew),
        Err(ReadRefusal::Text(fault)) => refused(alloc, &fault),
        Err(ReadRefusal::NoMemory) => Err(AllocError),
    }
}

/// The outcome of the run of a file with these options, and behind it the lines of its journey.
fn report<C: Crew>(
    alloc: Global,
    options: &Options,
    file: &NestFile,
    crew: &mut C,
) -> Result<Answer, AllocError>
    requires { AreInRange options.now }
    ensures answer { IfOk result (λ answer. IsReportOf options.now file.now answer.bytes.items answer.status) }
    ensures handed { FileHanded options.now file.now (C.handed crew.old) (C.handed crew.new) result }
{
    let journey = journey(alloc, file, &journey_options(options), crew)?;
    let mut bytes = outcome_text(alloc, file, &journey.state, &journey.ending, journey.steps)?;
    let lines = lines_text(alloc, file, journey.lines.as_slice())?;
    bytes.extend_from_slice(lines.as_slice())?;
    Ok(Answer {
        bytes,
        status: status_of(journey.ending),
    })
}
