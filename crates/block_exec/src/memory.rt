//! The plain port.

ghost use Rattle.std.specs.Prelude.{◌≡◌, ◌↔◌, ◌<◌, ◌≤ℤ◌, IsTrue, pos, unsigned_abs};
ghost use Rattle.std.specs.Borrow.{GName};
ghost use Rattle.nest_lang.specs.Lookups.{plain};

use crate::port::Port;
use nest_lang::Stop;

/// A port over a plain memory. It verifies nothing.
#[derive(Debug, Drop)]
pub struct MemoryPort<'a> {
    memory: &'a mut [i64],
}

impl<'a> MemoryPort<'a> {
    /// A port over these words. The word at address a is `memory[a]`.
    pub fn new(memory: &'a mut [i64]) -> MemoryPort<'a>
        ensures { result.memory ≡ memory.entry }
    {
        MemoryPort { memory }
    }
}

impl Port for MemoryPort<'_> {
    ghost Basis = { GName };

    ghost memory = { λ p. p.memory.now };

    ghost expects = { λ p. plain };

    // the reference that it was made of, so that a caller learns what was written through it
    ghost basis = { λ p. p.memory.ghost_name };

    #[tactic(auto, using(crate::proofs::MemoryLaws::plain_looks))]
    fn load(&mut self, _access: u8, address: i64) -> Result<i64, Stop> {
        if !is_word(address, self.memory.len()) {
            return Err(Stop::Outside(address));
        }
        Ok(self.memory[address as usize])
    }

    #[tactic(auto, using(crate::proofs::MemoryLaws::plain_looks))]
    fn store(&mut self, _access: u8, address: i64, value: i64) -> Result<(), Stop> {
        if !is_word(address, self.memory.len()) {
            return Err(Stop::Outside(address));
        }
        self.memory[address as usize] = value;
        Ok(())
    }
}

/// The address is that of one of so many words.
fn is_word(address: i64, words: usize) -> bool
    ensures { IsTrue result ↔ ((pos 0 ≤ℤ address) × (unsigned_abs address < words)) }
{
    0 <= address && (address as u64) < words as u64
}
