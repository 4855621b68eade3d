//! Why a call gives no result.

ghost use Rattle.std.specs.Prelude.{◌≡◌};
ghost use Rattle.nest_text.specs.declared.refusal.ReadRefusal.TheVariants.{NoMemory as OutOfMemory};

use nest_grammar::TextFault;
use std::alloc::{AllocError, AllocFailed};
use thiserror::Error;

/// Why a text was not read: its first fault, or a growth that was refused.
#[derive(Clone, Copy, Debug, PartialEq, Eq, Error)]
pub enum ReadRefusal {
    #[error("the text has a fault")]
    Text(TextFault),
    #[error("out of memory")]
    NoMemory,
}

impl From<AllocError> for ReadRefusal {
    ghost from_gives = { λ _ refusal. refusal ≡ OutOfMemory };

    fn from(_: AllocError) -> Self {
        ReadRefusal::NoMemory
    }
}

impl<T: Drop> From<AllocFailed<T>> for ReadRefusal {
    ghost from_gives = { λ _ refusal. refusal ≡ OutOfMemory };

    fn from(_: AllocFailed<T>) -> Self {
        ReadRefusal::NoMemory
    }
}
