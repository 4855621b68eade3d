//! The state of a run, and the position of its outermost loop.

ghost use Rattle.std.specs.Prelude.{◌≡◌};
ghost use Rattle.nest_lang.specs.Stores.{word_at};

use std::marker::Model;

/// The words of the memory and the scalars. The word at address a is `memory[a]`; scalars are in the
/// order of their declaration.
#[derive(Debug, Drop)]
pub struct State {
    pub memory: Vec<i64>,
    pub scalars: Vec<i64>,
}

impl Model for State {
    ghost use Rattle.std.specs.Prelude.{[]};
    ghost use Rattle.nest_lang.specs.Stores.{Store};

    ghost Value = { Store };

    ghost view = { λ s. record { memory = s.memory.items; scalars = s.scalars.items; locals = [] } };
}

impl State {
    /// The word at an address. None exactly where the address is no word.
    pub fn word(&self, address: i64) -> Option<i64>
        ensures { result ≡ word_at self.now.memory address }
    {
        if address < 0 {
            return None;
        }
        self.memory.get(address as usize).copied()
    }
}

/// Where the outermost loop stands: the lower bound of a `for` (0 for a `while`), the number of the
/// next turn, and the turns that are left of a `for` (None for a `while`).
#[derive(Clone, Copy, Debug, PartialEq, Eq)]
pub struct Outer {
    pub lower: i64,
    pub next: i64,
    pub left: Option<u64>,
}
