//! What a call answers in place of its result.
ghost use Rattle.std.specs.Prelude.{◌≡◌};
ghost use Rattle.nest_io.specs.declared.refusals.ReadEnd.TheVariants.{Fault, NoMemory as OutOfMemory};

use std::alloc::{AllocError, AllocFailed};
use thiserror::Error;

/// A read or a write that failed. The count of faults of the object rose.
#[derive(Clone, Copy, Debug, PartialEq, Eq, Error)]
#[error("a read or a write failed")]
pub struct Failed;

/// Why a text was not read to its end or its limit.
#[derive(Clone, Copy, Debug, PartialEq, Eq, Error)]
pub enum ReadEnd {
    /// A read of the source failed.
    #[error("the source failed")]
    Fault,
    /// There was no room for what the source gave.
    #[error("out of memory")]
    NoMemory,
}

impl From<Failed> for ReadEnd {
    ghost from_gives = { λ _ end. end ≡ Fault };

    fn from(_: Failed) -> Self {
        ReadEnd::Fault
    }
}

impl From<AllocError> for ReadEnd {
    ghost from_gives = { λ _ end. end ≡ OutOfMemory };

    fn from(_: AllocError) -> Self {
        ReadEnd::NoMemory
    }
}
