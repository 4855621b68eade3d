//! The port over a worker's seat.
ghost use Rattle.std.specs.Prelude.{◌≡◌, ◌<◌, ◌≤ℤ◌, ◌↔◌, true, false, pos, unsigned_abs, length, Option, Some, None, IsTrue, if◌then◌else◌};
ghost use Rattle.std.specs.Borrow.{GName};
ghost use Rattle.nest_lang.specs.Lookups.{lies_in, line_of};
ghost use Rattle.follow.specs.Intervals.{interval_by};
ghost use Rattle.follow_chunk.specs.Predicted.{interval_at};
ghost use Rattle.shared_words.specs.Seats.{SeatState, memory_words};
ghost use Rattle.shared_words.specs.Memories.{shown};
ghost use Rattle.verified_turns.specs.Ports.{own_expectation, MayTouch, unwritten};

use block_exec::{Port, Stop};
use follow::{Expected, Interval};
use follow_chunk::Foreseen;
use shared_words::{SharedWords, WorkSeat};

/// A port over the memory that a worker's seat shows, for one instance. It verifies the accesses of the
/// instance: an address is compared with the interval that is foreseen of its access before the seat is asked, so no
/// address that isn't expected reaches the seat.
#[derive(Drop)]
pub struct WorkerPort<'a, 's, 'e, const D: usize> {
    seat: &'s mut WorkSeat,
    words: &'a SharedWords,
    foreseen: &'e Foreseen<'e, D>,
    ghost few: { D < 7 },
    ghost table: { seat.now.table ≡ words.now },
    ghost counted: { memory_words words.now ≡ length seat.now.view.base },
    ghost may: { MayTouch foreseen.now.forms.now (interval_at foreseen.now.pred.now foreseen.now.inst.now) seat.now.view },
}

impl<'a, 's, 'e, const D: usize> WorkerPort<'a, 's, 'e, D> {
    /// The port over this seat of these words, for an instance of which this is foreseen. The seat may touch each word
    /// in the interval of an access, as the load or the store that it is. Takes no memory.
    pub fn new(
        seat: &'s mut WorkSeat,
        words: &'a SharedWords,
        foreseen: &'e Foreseen<'e, D>,
    ) -> WorkerPort<'a, 's, 'e, D>
        requires few { D < 7 }
        requires table { seat.old.table ≡ words.now }
        requires counted { memory_words words.now ≡ length seat.old.view.base }
        requires may { MayTouch foreseen.now.forms.now (interval_at foreseen.now.pred.now foreseen.now.inst.now) seat.old.view }
        ensures seat { result.seat ≡ seat.entry }
        ensures foreseen { result.foreseen.now ≡ foreseen.now }
    {
        WorkerPort {
            seat,
            words,
            foreseen,
        }
    }

    /// The interval of a load of that number.
    fn of_load(&self, access: u8) -> Option<Interval>
        ensures { interval_by result ≡ (own_expectation self.now.foreseen.now.forms.now (interval_at self.now.foreseen.now.pred.now self.now.foreseen.now.inst.now)).loads access }
    {
        let form = self.foreseen.forms.access(access)?;
        if form.stores {
            return None;
        }
        self.foreseen.interval(access)
    }

    /// The interval of a store of that number.
    fn of_store(&self, access: u8) -> Option<Interval>
        ensures { interval_by result ≡ (own_expectation self.now.foreseen.now.forms.now (interval_at self.now.foreseen.now.pred.now self.now.foreseen.now.inst.now)).stores access }
    {
        let form = self.foreseen.forms.access(access)?;
        if !form.stores {
            return None;
        }
        self.foreseen.interval(access)
    }
}

impl<const D: usize> Port for WorkerPort<'_, '_, '_, D> {
    ghost Basis = { SeatState × GName };

    ghost memory = { λ p. shown p.seat.now.view };

    ghost expects = { λ p. own_expectation p.foreseen.now.forms.now (interval_at p.foreseen.now.pred.now p.foreseen.now.inst.now) };

    // with the reference that it was made of, so that a caller learns what was stored through it
    ghost basis = { λ p. (unwritten p.seat.now, p.seat.ghost_name) };

    fn load(&mut self, access: u8, address: i64) -> Result<i64, Stop> {
        let interval = self.of_load(access);
        if let Some(expected) = refused(interval, address) {
            return Err(Stop::Unexpected {
                seen: address,
                expected,
            });
        }
        if !is_word(address, self.words.count()) {
            return Err(Stop::Outside(address));
        }
        Ok(self.seat.load(self.words, address as u64))
    }

    fn store(&mut self, access: u8, address: i64, value: i64) -> Result<(), Stop> {
        let interval = self.of_store(access);
        if let Some(expected) = refused(interval, address) {
            return Err(Stop::Unexpected {
                seen: address,
                expected,
            });
        }
        if !is_word(address, self.words.count()) {
            return Err(Stop::Outside(address));
        }
        self.seat.store(self.words, address as u64, value);
        Ok(())
    }
}

/// The line of what is expected, or that nothing is, where the address isn't in this interval.
fn refused(expected: Option<Interval>, address: i64) -> Option<Option<i128>>
    ensures { result ≡ (if lies_in (interval_by expected) address then None else Some (line_of (interval_by expected))) }
{
    match expected {
        Some(interval) if interval.has(address) => None,
        Some(interval) => Some(Some(interval.line)),
        None => Some(None),
    }
}

/// The address is that of one of so many words.
fn is_word(address: i64, words: u64) -> bool
    ensures { IsTrue result ↔ ((pos 0 ≤ℤ address) × (unsigned_abs address < words)) }
{
    0 <= address && (address as u64) < words
}
