//! Chunks of turns of the outermost loop.

/// Some turns of the outermost loop: the number of the first, and how many.
#[derive(Clone, Copy, Debug, PartialEq, Eq)]
pub struct Chunk {
    pub first: i64,
    pub turns: i64,
}
