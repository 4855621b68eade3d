//! Who is shown what an instance of a block does.

ghost use Rattle.std.specs.Prelude.{◌≡◌};
ghost use Rattle.nest_lang.specs.Traces.{Observation};
ghost use Rattle.block_exec.specs.Watches.{observed};

use nest_lang::{BlockRef, Seen};

/// A watch means a relation: what it may be after one thing was shown, given what it was.
pub trait Watch {
    ghost may: { Self → Observation → Self → Type 0 };

    /// Is shown one thing of the instance of a block with these turn numbers.
    fn see(&mut self, block: BlockRef, counters: &[i64], what: Seen, value: i128)
        ensures { may self.old (observed block counters.now what value) self.new };
}

/// A watch that keeps nothing.
#[derive(Clone, Copy, Debug, PartialEq, Eq)]
pub struct Blind;

impl Watch for Blind {
    ghost may = { λ old what new. new ≡ old };

    fn see(&mut self, _block: BlockRef, _counters: &[i64], _what: Seen, _value: i128) {}
}
