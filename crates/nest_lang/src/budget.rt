//! Budgets of steps, and how runs end.

ghost use Rattle.std.specs.Prelude.{◌≡◌, ◌+◌, ◌-◌, ◌<◌, ◌≤◌, ◌^◌, ◌↔◌, IsTrue, min};

use crate::tree::Trap;

/// Steps that may still be taken, and those that were. Together they are at most 2^32.
#[derive(Clone, Copy, Debug, PartialEq, Eq)]
pub struct Budget {
    pub left: u64,
    pub used: u64,
}

impl Budget {
    /// Moves one step from `left` to `used`. False exactly where none is left, and nothing is changed
    /// then.
    pub fn take(&mut self) -> bool
        requires { self.old.left + self.old.used ≤ 2 ^ 32 }
        ensures taken { IsTrue result ↔ (0 < self.old.left) }
        ensures left { self.new.left ≡ self.old.left - 1 }
        ensures used { self.new.used ≡ self.old.used + min 1 self.old.left }
    {
        if self.left == 0 {
            return false;
        }
        self.left -= 1;
        self.used += 1;
        true
    }
}

/// How a plain run ends.
#[derive(Clone, Copy, Debug, PartialEq, Eq)]
pub enum Ending {
    /// Every step was taken.
    Ended,
    /// The last step taken trapped.
    Trapped(Trap),
    /// A step is due, and none is left.
    Limited,
}

/// How some turns of the outermost loop end.
#[derive(Clone, Copy, Debug, PartialEq, Eq)]
pub enum Turned {
    /// All the turns were run.
    Went,
    /// The loop ended before.
    Ended,
    /// The last step taken trapped.
    Trapped(Trap),
    /// A step is due, and none is left.
    Limited,
}
