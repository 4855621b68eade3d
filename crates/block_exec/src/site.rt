//! Where instances run.

ghost use Rattle.std.specs.Prelude.{◌≡◌, ◌+◌, ◌<◌, ◌≤◌, ◌^◌};
ghost use Rattle.nest_lang.specs.Lookups.{Expectation};
ghost use Rattle.nest_lang.specs.Loops.{inward, frame_of};
ghost use Rattle.block_exec.specs.Sites.{frame_at, around_at};

use nest_lang::BlockRef;

/// An instance of a block: the block, the turn numbers of the loops around it, and the values of their
/// names, the outermost first.
#[derive(Clone, Copy, Debug)]
pub struct Site<'a> {
    pub block: BlockRef,
    pub counters: &'a [i64],
    pub values: &'a [i64],
}

/// The turn numbers of the loops of a nest and the values of their names, the outermost first. Those of
/// loops that have not begun are no matter.
#[derive(Clone, Copy, Debug)]
pub struct Places {
    pub counters: [i64; 6],
    pub values: [i64; 6],
}

impl Places {
    /// Before any loop has begun.
    pub fn new() -> Places {
        Places {
            counters: [0; 6],
            values: [0; 6],
        }
    }

    /// The instance of a block inside of so many loops (at most 6).
    pub fn site(&self, block: BlockRef, depth: usize) -> Site<'_>
        requires { depth ≤ 6 }
        ensures { (x : Expectation) → frame_at result x ≡ frame_of x block.part block.level (around_at depth self.now) }
    {
        Site {
            block,
            counters: &self.counters[..depth],
            values: &self.values[..depth],
        }
    }

    /// Begins a turn of the loop inside of so many loops (at most 5), in which its name has this value.
    #[tactic(auto, using(crate::proofs::PlaceLaws::begins))]
    pub fn begin(&mut self, depth: usize, turn: u64, value: i64)
        requires depth { depth < 6 }
        requires turn { turn < 2 ^ 63 }
        ensures inner { around_at (depth + 1) self.new ≡ inward (around_at depth self.old) turn value }
        ensures outer { around_at depth self.new ≡ around_at depth self.old }
    {
        self.counters[depth] = turn as i64;
        self.values[depth] = value;
    }
}
