//! Files: what a text gives, as plain data.

use crate::version::Version;
use nest_lang::{Command, Nest, Place};
use nest_tokens::Name;
use sqlite_items::Items;

/// A name that is visible, and what it stands for.
#[derive(Clone, Copy, Debug, PartialEq, Eq)]
pub struct Declared {
    pub name: Name,
    pub place: Place,
}

/// A scalar of a file and its first value.
#[derive(Clone, Copy, Debug, PartialEq, Eq)]
pub struct Scalar {
    pub name: Name,
    pub value: i64,
}

/// First values of words: a list of values from an address on, or `count` values `start + growth*k` at
/// the addresses `first + stride*k`.
#[derive(Debug, Drop)]
pub enum Item {
    Data {
        first: u64,
        values: Items<i64>,
    },
    Ramp {
        first: u64,
        count: u64,
        stride: u64,
        start: i64,
        growth: i64,
    },
}

/// The names of a loop: that of its turns where it is a `for`, and those of the locals of its block
/// before the inner loop and of the one after it, by their numbers.
#[derive(Debug, Drop)]
pub struct LoopNames {
    pub counter: Option<Name>,
    pub pre: Items<Name>,
    pub post: Items<Name>,
}

/// A nest with the names of its loops, the outermost first, and its candidates' scripts.
#[derive(Debug, Drop)]
pub struct NestUnit {
    pub nest: Nest,
    pub names: Items<LoopNames>,
    pub scripts: Items<Items<Command>>,
}

/// What a text gives: its version, the scalars, the number of words of the memory, their first values,
/// and the nests, which run one after another.
#[derive(Debug, Drop)]
pub struct File {
    pub version: Version,
    pub scalars: Items<Scalar>,
    pub words: usize,
    pub items: Items<Item>,
    pub units: Items<NestUnit>,
}
