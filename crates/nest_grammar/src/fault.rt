//! The first fault of a text.

/// What is wrong at a token. At one token the first of these that applies is taken.
#[derive(Clone, Copy, Debug, PartialEq, Eq)]
pub enum TextKind {
    /// The text is longer than 1,048,576 bytes.
    Long,
    /// A byte that begins no token.
    Byte,
    /// A number past 9223372036854775807.
    Number,
    /// A name longer than 32 bytes.
    Name,
    /// A token that the grammar does not allow here.
    Expected,
    /// A version that is neither 1 nor 2.
    Version,
    /// A declared name that is already visible.
    Known,
    /// A name that is not visible.
    Unknown,
    /// A visible name that is given a value and is no scalar.
    Fixed,
    /// One more than its limit.
    Many,
    /// Deeper or longer than its limit.
    Deep,
    /// A number out of its range.
    Range,
    /// A loop's body without anything in it.
    Empty,
    /// A number or a word that breaks a rule of scripts.
    Script,
}

/// The first fault of a text: the offset in bytes of the token that is wrong, and its kind.
#[derive(Clone, Copy, Debug, PartialEq, Eq)]
pub struct TextFault {
    pub at: u64,
    pub what: TextKind,
}
