//! Why a profile has no fit.

ghost use Rattle.std.specs.Prelude.{◌≡◌};

use domain::{Instance, What};
use std::alloc::{AllocError, AllocFailed};

/// Why a datum has no fit.
#[derive(Clone, Copy, Debug, PartialEq, Eq)]
pub enum UnfitWhy<const D: usize> {
    /// The tube would be too wide. This is the first sample that the line misses: its instance, the line there, and the
    /// value that was seen.
    Line {
        at: Instance<D>,
        line: i128,
        seen: i128,
    },
    /// A number of the line is too large: the first coefficient above 2^40 in size, or else a constant that is no i64.
    Large(i128),
}

/// A datum that has no fit: the rank of its block, which datum it is, and why.
#[derive(Clone, Copy, Debug, PartialEq, Eq)]
pub struct Unfit<const D: usize> {
    pub block: u8,
    pub what: What,
    pub why: UnfitWhy<D>,
}

/// Why there is no fit.
#[derive(Clone, Copy, Debug, PartialEq, Eq)]
pub enum FitEnd<const D: usize> {
    /// The first datum, in the order of the text, that has none.
    Unfit(Unfit<D>),
    /// Memory is wanting.
    NoMemory,
}

impl<const D: usize> From<AllocError> for FitEnd<D> {
    ghost use Rattle.profile.specs.declared.unfit.FitEnd.TheVariants.{NoMemory};

    ghost from_gives = { λ _ result. result ≡ NoMemory };

    fn from(_error: AllocError) -> Self {
        FitEnd::NoMemory
    }
}

impl<T: Drop, const D: usize> From<AllocFailed<T>> for FitEnd<D> {
    ghost use Rattle.profile.specs.declared.unfit.FitEnd.TheVariants.{NoMemory};

    ghost from_gives = { λ _ result. result ≡ NoMemory };

    fn from(_error: AllocFailed<T>) -> Self {
        FitEnd::NoMemory
    }
}
