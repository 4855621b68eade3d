//! How operands, statements, loops and items begin.

use nest_tokens::Name;

/// How an operand begins.
#[derive(Clone, Copy, Debug, PartialEq, Eq)]
pub enum Start {
    Number(u64),
    Name(Name),
    Minus,
    Open,
    Bracket,
    Other,
}

/// How a statement begins.
#[derive(Clone, Copy, Debug, PartialEq, Eq)]
pub enum Opening {
    Let,
    Name(Name),
    Store,
    If,
}

/// The word that a loop begins with.
#[derive(Clone, Copy, Debug, PartialEq, Eq)]
pub enum LoopKeyword {
    For,
    While,
}

/// The word that an item of the memory begins with.
#[derive(Clone, Copy, Debug, PartialEq, Eq)]
pub enum ItemKeyword {
    Data,
    Ramp,
}
