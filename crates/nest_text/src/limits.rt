//! The limits of files (docs/DEFINITIONS.md, Limits).

ghost use Rattle.std.specs.Prelude.{◌≡◌};
ghost use Rattle.nest_grammar.specs.Limits.{most_depth, most_accesses};

use nest_grammar::Version;

/// The most bytes of a text.
pub const MOST_BYTES: usize = 1_048_576;

/// The most words of a memory.
pub const MOST_WORDS: u64 = 1_048_576;

/// The most scalars of a file.
pub const MOST_SCALARS: usize = 16;

/// The most locals of a block.
pub const MOST_LETS: usize = 16;

/// The most tokens of an expression.
pub const MOST_TOKENS: usize = 256;

/// The most brackets, parentheses and prefix signs that are open at once in an expression.
pub const MOST_OPEN: usize = 32;

/// The most conditions that stand within one another.
pub const MOST_IFS: usize = 8;

/// The most nests of a file.
pub const MOST_NESTS: usize = 8;

/// The most candidates of a nest.
pub const MOST_CANDIDATES: usize = 16;

/// The most commands of a candidate.
pub const MOST_COMMANDS: usize = 32;

/// The most skews of a candidate.
pub const MOST_SKEWS: usize = 6;

/// The most rows that one command marks.
pub const MOST_ROWS: usize = 6;

/// The most loops that stand within one another.
pub fn most_depth(version: Version) -> usize
    ensures { result ≡ most_depth version }
{
    match version {
        Version::One => 4,
        Version::Two => 6,
    }
}

/// The most accesses of a block.
pub fn most_accesses(version: Version) -> u8
    ensures { result ≡ most_accesses version }
{
    match version {
        Version::One => 32,
        Version::Two => 64,
    }
}
