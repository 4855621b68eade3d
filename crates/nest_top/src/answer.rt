//! Answers: made before anything is written, and then written.

ghost use Rattle.std.specs.Prelude.{◌≡◌, IfOk};
ghost use Rattle.report.specs.Faults.{refusal_line};
ghost use Rattle.command_line.specs.Invocations.{usage_line};
ghost use Rattle.nest_top.specs.Runs.{IsPut};

use crate::status::Status;
use command_line::usage_text;
use nest_io::{Sink, write_all};
use nest_text::TextFault;
use report::refusal_text;
use std::alloc::{AllocError, Global};

/// Bytes to be put into the sink, and the status that is answered once they are.
#[derive(Debug, Drop)]
pub(crate) struct Answer {
    pub(crate) bytes: Vec<u8>,
    pub(crate) status: Status,
}

impl Answer {
    /// Puts the bytes into a sink. The status is this answer's, or that of a fault of the sink.
    pub(crate) fn put<K: Sink>(&self, sink: &mut K) -> Status
        ensures { IsPut (record { bytes = K.held; faults = K.faults; before = sink.old; after = sink.new }) self.now.bytes.items self.now.status result }
    {
        match write_all(sink, self.bytes.as_slice()) {
            Ok(()) => self.status,
            Err(_) => Status::SinkFault,
        }
    }
}

/// The answer where the arguments are no invocation.
pub(crate) fn usage(alloc: Global) -> Result<Answer, AllocError>
    ensures { IfOk result (λ answer. (answer.bytes.items ≡ usage_line) × (answer.status ≡ Status.Usage)) }
{
    Ok(Answer {
        bytes: usage_text().as_bytes().to_vec(alloc)?,
        status: Status::Usage,
    })
}

/// The answer to a text with this first fault.
pub(crate) fn refused(alloc: Global, fault: &TextFault) -> Result<Answer, AllocError>
    ensures { IfOk result (λ answer. (answer.bytes.items ≡ refusal_line fault.now) × (answer.status ≡ Status.Refused)) }
{
    Ok(Answer {
        bytes: refusal_text(alloc, fault)?,
        status: Status::Refused,
    })
}
