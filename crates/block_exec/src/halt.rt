//! Why runs are cut short.

ghost use Rattle.std.specs.Prelude.{◌≡◌, Err};
ghost use Rattle.nest_lang.specs.Traces as trace;
ghost use Rattle.nest_lang.specs.Expressions.{or_stopped};
ghost use Rattle.block_exec.specs.Halts.{halt_by, IsTrap};

use nest_lang::{Stop, Trap};

/// A trap, or an access (its number and its address) that the port does not expect, with the line of
/// what is expected, or None where nothing is.
#[derive(Clone, Copy, Debug, PartialEq, Eq)]
pub enum Halt {
    Trapped(Trap),
    Stopped(u8, i64, Option<i128>),
}

impl Halt {
    /// What a run begins with, before a step of it halted. No call reads it.
    pub const NONE: Halt = Halt::Trapped(Trap::Overflow);

    /// The trap of a halt that is one, as each halt over a port that does not verify.
    pub fn trap(self) -> Trap
        requires { IsTrap self }
        ensures { halt_by self ≡ trace.Trapped result }
    {
        match self {
            Halt::Trapped(trap) => trap,
            Halt::Stopped(_, _, _) => unreachable!(),
        }
    }
}

/// A step halted; the run keeps why.
#[derive(Clone, Copy, Debug, PartialEq, Eq)]
pub struct Halted;

/// Why statements end early.
#[derive(Clone, Copy, Debug, PartialEq, Eq)]
pub enum Cut {
    /// The last step taken halted; the run keeps why.
    Halted,
    /// A step is due, and none is left.
    Limited,
}

impl From<Halted> for Cut {
    ghost use Rattle.block_exec.specs.declared.halt.Cut.{Cut};

    ghost from_gives = { λ _ cut. cut ≡ Cut.Halted };

    fn from(_halted: Halted) -> Cut {
        Cut::Halted
    }
}

/// A refused look-up halts.
pub fn halt_of(access: u8, stop: Stop) -> Halt
    ensures { Err (halt_by result) ≡ or_stopped access (Err stop) }
{
    match stop {
        Stop::Outside(address) => Halt::Trapped(Trap::Outside(address)),
        Stop::Unexpected { seen, expected } => Halt::Stopped(access, seen, expected),
    }
}
