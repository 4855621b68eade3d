//! The port over the main seat.
ghost use Rattle.std.specs.Prelude.{◌≡◌, ◌<◌, ◌≤ℤ◌, ◌↔◌, false, pos, unsigned_abs, IsTrue};
ghost use Rattle.std.specs.Borrow.{GName};
ghost use Rattle.nest_lang.specs.Lookups.{plain};
ghost use Rattle.shared_words.specs.Seats.{SeatState};
ghost use Rattle.shared_words.specs.Memories.{signed};
ghost use Rattle.controller.specs.Bases.{unstored};

use block_exec::{Port, Stop};
use shared_words::{MainSeat, SharedWords};

/// A port over the memory that the main seat shows, while no plan is posted. It verifies nothing.
#[derive(Drop)]
pub struct MainPort<'a> {
    main: &'a mut MainSeat,
    words: &'a SharedWords,
    ghost table: { main.now.table ≡ words.now },
    ghost unposted: { main.now.view.posted ≡ false },
}

impl<'a> MainPort<'a> {
    /// A port over this seat of these words. No plan may be posted. Takes no memory.
    pub fn new(main: &'a mut MainSeat, words: &'a SharedWords) -> MainPort<'a>
        requires table { main.old.table ≡ words.now }
        requires unposted { main.old.view.posted ≡ false }
        ensures { result.main ≡ main.entry }
    {
        MainPort { main, words }
    }
}

impl Port for MainPort<'_> {
    ghost Basis = { SeatState × GName };

    ghost memory = { λ p. signed p.main.now.view.base };

    ghost expects = { λ p. plain };

    // with the reference that it was made of, so that a caller learns what was stored through it
    ghost basis = { λ p. (unstored p.main.now, p.main.ghost_name) };

    #[tactic(auto, using(crate::proofs::MainSeatLaws::main_looks))]
    fn load(&mut self, _access: u8, address: i64) -> Result<i64, Stop> {
        if !is_word(address, self.main.count(self.words)) {
            return Err(Stop::Outside(address));
        }
        Ok(self.main.load(self.words, address as u64))
    }

    #[tactic(auto, using(crate::proofs::MainSeatLaws::main_looks))]
    fn store(&mut self, _access: u8, address: i64, value: i64) -> Result<(), Stop> {
        if !is_word(address, self.main.count(self.words)) {
            return Err(Stop::Outside(address));
        }
        self.main.store(self.words, address as u64, value);
        Ok(())
    }
}

/// The address is that of one of so many words.
fn is_word(address: i64, words: u64) -> bool
    ensures { IsTrue result ↔ ((pos 0 ≤ℤ address) × (unsigned_abs address < words)) }
{
    0 <= address && (address as u64) < words
}
