//! A memory behind a port.

ghost use Rattle.std.specs.Prelude.{◌≡◌, List, ℤ};
ghost use Rattle.nest_lang.specs.Lookups.{Expectation, look_load, look_store};
ghost use Rattle.block_exec.specs.Ports.{without_word, memory_after};

use nest_lang::Stop;

/// A memory, and what is expected of the addresses of one block: whether they are verified, and the
/// interval of each load and of each store, by access number, where there is one.
///
/// `Unexpected` comes exactly where the port verifies and the address is not in the access's interval,
/// or it has none; `Outside` exactly where that does not hold and the address is no word. After either
/// the memory is as before. The basis is plain data that says what the port was made over.
pub trait Port {
    ghost Basis: { Type 0 };

    ghost memory: { Self → List ℤ };

    ghost expects: { Self → Expectation };

    ghost basis: { Self → Basis };

    /// The word at an address. Changes nothing.
    fn load(&mut self, access: u8, address: i64) -> Result<i64, Stop>
        ensures answer { result ≡ look_load (expects self.old) (memory self.old) access address }
        ensures memory { memory self.new ≡ memory self.old }
        ensures expects { expects self.new ≡ expects self.old }
        ensures basis { basis self.new ≡ basis self.old };

    /// Sets the word at an address, and no other.
    fn store(&mut self, access: u8, address: i64, value: i64) -> Result<(), Stop>
        ensures answer { result ≡ without_word (look_store (expects self.old) (memory self.old) access address) }
        ensures memory { memory self.new ≡ memory_after result (memory self.old) address value }
        ensures expects { expects self.new ≡ expects self.old }
        ensures basis { basis self.new ≡ basis self.old };
}
