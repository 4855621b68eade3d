//! Samples of a datum, the line through them with its tube, and a sample that the line misses.

ghost use Rattle.std.specs.Prelude.{◌≡◌};

use affine::Form;
use std::alloc::AllocError;
use std::marker::Model;

/// A value that was observed of a datum, at the D counters of an instance. It is at most 2^64 in size.
#[derive(Clone, Copy, Debug, PartialEq, Eq)]
pub struct Sample<const D: usize> {
    /// The counters, the outermost first.
    pub at: [i64; D],
    /// The value.
    pub value: i128,
}

impl<const D: usize> Model for Sample<D> {
    ghost use Rattle.std.specs.Prelude.{◌≤◌, ◌^◌, unsigned_abs};
    ghost use Rattle.line_fit.specs.Samples.{Sample as Seen};

    ghost Value = { Seen };

    ghost view = { λ sample. record { at = sample.at; value = sample.value } };

    ghost invariant = { λ sample. unsigned_abs sample.value ≤ 2 ^ 64 };

    ghost inverse = { λ sample. record { at = sample.at; value = sample.value } };
}

/// A line with its tube: each sample less the line lies from low to high.
#[derive(Clone, Copy, Debug, PartialEq, Eq)]
pub struct Tube<const D: usize> {
    /// The line.
    pub line: Form<D>,
    /// The least of sample less line, which is at most 0.
    pub low: i64,
    /// The greatest of sample less line, which is at least 0.
    pub high: i64,
}

impl<const D: usize> Model for Tube<D> {
    ghost use Rattle.line_fit.specs.Lines.{Tube as LineTube};

    ghost Value = { LineTube };

    ghost view = { λ tube. record { line = tube.line; low = tube.low; high = tube.high } };

    ghost inverse = { λ tube. record { line = tube.line; low = tube.low; high = tube.high } };
}

/// A sample that the line misses.
#[derive(Clone, Copy, Debug, PartialEq, Eq)]
pub struct Miss<const D: usize> {
    /// The counters of the sample.
    pub at: [i64; D],
    /// The line there.
    pub line: i128,
    /// The value of the sample.
    pub seen: i128,
}

impl<const D: usize> Model for Miss<D> {
    ghost use Rattle.line_fit.specs.Lines.{Miss as LineMiss};

    ghost Value = { LineMiss };

    ghost view = { λ miss. record { at = miss.at; line = miss.line; seen = miss.seen } };

    ghost inverse = { λ miss. record { at = miss.at; line = miss.line; seen = miss.seen } };
}

/// Why samples have no fit.
#[derive(Clone, Copy, Debug, PartialEq, Eq)]
pub enum NoFit<const D: usize> {
    /// A number of the line is too large: the first coefficient above 2^40 in size, or else a constant that is no
    /// i64.
    Large(i128),
    /// The tube is too wide. This is the first sample that the line misses.
    Missed(Miss<D>),
    /// Memory is wanting.
    NoMemory,
}

impl<const D: usize> From<AllocError> for NoFit<D> {
    ghost use Rattle.line_fit.specs.declared.sample.NoFit.TheVariants.{NoMemory};

    ghost from_gives = { λ _ result. result ≡ NoMemory };

    fn from(_error: AllocError) -> Self {
        NoFit::NoMemory
    }
}
