//! Where bytes come from.
ghost use Rattle.std.specs.Prelude.{◌≡◌, ◌<◌, ◌≤◌, ◌↔◌, ℕ, List, Option, [], length, take, IfOk, IfSome, OnErr};
ghost use Rattle.nest_io.specs.Faults.{Rose};
ghost use Rattle.nest_io.specs.Bytes.{Takes};

use crate::Failed;

/// Where bytes come from: a file, a pipe, memory.
pub trait Source {
    /// The bytes that it has left, where it tells them.
    ghost left: { Self → Option (List ℕ) };

    /// How many of its reads failed. At 2^64 - 1 the count stands still.
    ghost faults: { Self → ℕ };

    /// Puts bytes at the front of `into` and says how many. 0 bytes into room for at least one are the
    /// end of input. `Failed` takes nothing, and comes only where the count of faults rose.
    fn read(&mut self, into: &mut [u8]) -> Result<usize, Failed>
        ensures room { IfOk result (λ count. count ≤ length into.new) }

        // The bytes at the front of `into` were the first that were left, and are gone.
        ensures taken { IfOk result (λ count.
            Takes (left self.old) (left self.new) (take count into.new)) }
        ensures end { IfOk result (λ count. 0 < length into.new → IfSome (left self.old) (λ bytes.
            (count ≡ 0) ↔ (bytes ≡ []))) }
        ensures nothing { OnErr result (Takes (left self.old) (left self.new) []) }

        ensures cause { OnErr result (Rose (faults self.old) (faults self.new)) }
        ensures never_falls { faults self.old ≤ faults self.new };
}
