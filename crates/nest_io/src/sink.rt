//! Where bytes go.
ghost use Rattle.std.specs.Prelude.{◌≡◌, ◌<◌, ◌≤◌, ℕ, List, Option, [], length, take, IfOk, OnErr};
ghost use Rattle.nest_io.specs.Faults.{Rose};
ghost use Rattle.nest_io.specs.Bytes.{Appends};

use crate::Failed;

/// Where bytes go: a file, a pipe, memory.
pub trait Sink {
    /// The bytes that it holds, where it tells them.
    ghost held: { Self → Option (List ℕ) };

    /// How many of its writes failed. At 2^64 - 1 the count stands still.
    ghost faults: { Self → ℕ };

    /// Appends the first bytes of the piece and says how many: at least one, unless the piece is empty.
    /// `Failed` appends nothing, and comes only where the count of faults rose.
    fn write(&mut self, piece: &[u8]) -> Result<usize, Failed>
        ensures most { IfOk result (λ count. count ≤ length piece.now) }
        ensures least { IfOk result (λ count. 0 < length piece.now → 1 ≤ count) }
        ensures put { IfOk result (λ count.
            Appends (held self.old) (held self.new) (take count piece.now)) }
        ensures nothing { OnErr result (Appends (held self.old) (held self.new) []) }

        ensures cause { OnErr result (Rose (faults self.old) (faults self.new)) }
        ensures never_falls { faults self.old ≤ faults self.new };
}
