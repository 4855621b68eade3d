//! Statuses: how a call of the program went.

ghost use Rattle.std.specs.Prelude.{◌≡◌};
ghost use Rattle.nest_top.specs.Exits.{exit_code};

/// What `nest_run` answers.
#[derive(Clone, Copy, Debug, PartialEq, Eq)]
pub enum Status {
    /// The run ended within its steps, in the modes `plain`, `run` and `gen`; in the modes `check` and `deps` the text
    /// was read.
    Ended,
    /// The text has no reading.
    Refused,
    /// The source failed, and its count of faults rose.
    SourceFault,
    /// The sink failed, and its count of faults rose.
    SinkFault,
    /// Want of memory: a free answer, which no clause ties to a growth that was refused.
    NoMemory,
    /// The run trapped.
    Trapped,
    /// The run took all its steps, and another was due.
    Limited,
    /// The arguments are no invocation.
    Usage,
}

impl Status {
    /// The exit of the program (docs/LANGUAGE.md, Exits).
    pub fn exit(self) -> u8
        ensures { result ≡ exit_code self }
    {
        match self {
            Status::Ended => 0,
            Status::Refused => 2,
            Status::SourceFault => 3,
            Status::SinkFault => 4,
            Status::NoMemory => 5,
            Status::Trapped => 10,
            Status::Limited => 11,
            Status::Usage => 64,
        }
    }
}
