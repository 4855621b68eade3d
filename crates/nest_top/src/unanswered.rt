//! Why there is no answer.

ghost use Rattle.std.specs.Prelude.{◌≡◌};
ghost use Rattle.nest_top.specs.declared.unanswered.Unanswered.TheVariants.{NoMemory as OutOfMemory};
ghost use Rattle.nest_top.specs.Answers.{status_of_unanswered, unanswered_by};

use crate::status::Status;
use nest_io::ReadEnd;
use std::alloc::AllocError;

/// Why there is no answer.
#[derive(Clone, Copy, Debug, PartialEq, Eq)]
pub(crate) enum Unanswered {
    SourceFault,
    NoMemory,
}

impl Unanswered {
    /// The status that says so.
    pub(crate) fn status(self) -> Status
        ensures { result ≡ status_of_unanswered self }
    {
        match self {
            Unanswered::SourceFault => Status::SourceFault,
            Unanswered::NoMemory => Status::NoMemory,
        }
    }
}

impl From<AllocError> for Unanswered {
    ghost from_gives = { λ _ found. found ≡ OutOfMemory };

    fn from(_: AllocError) -> Self {
        Unanswered::NoMemory
    }
}

impl From<ReadEnd> for Unanswered {
    ghost from_gives = { λ end found. found ≡ unanswered_by end };

    fn from(end: ReadEnd) -> Self {
        match end {
            ReadEnd::Fault => Unanswered::SourceFault,
            ReadEnd::NoMemory => Unanswered::NoMemory,
        }
    }
}
