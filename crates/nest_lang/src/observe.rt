//! What is seen of a run, and why a look-up of an address is refused.

/// The kind of a thing that is shown of an instance of a block (docs/DEFINITIONS.md, Observations).
/// `Start` comes first and is no observation: it says that the instance is due.
#[derive(Clone, Copy, Debug, PartialEq, Eq)]
pub enum Seen {
    /// The instance is due; the value is 0.
    Start,
    /// A scalar as the instance begins, numbered from 0.
    Scalar(u8),
    /// The address of an access, numbered from 1.
    Address(u8),
    /// The lower bound of a `for`.
    Lower,
    /// The number of turns of a `for`.
    Trip,
    /// The condition of a `while`, as 1 or 0.
    Condition,
}

/// Why a look-up is refused.
#[derive(Clone, Copy, Debug, PartialEq, Eq)]
pub enum Stop {
    /// The address is no word.
    Outside(i64),
    /// The address isn't in the interval that is expected of the access. `expected` is the line of
    /// that interval, or None where nothing is expected of the access.
    Unexpected { seen: i64, expected: Option<i128> },
}
