//! The seat of one worker, from its split to its join.
ghost use Rattle.std.specs.Prelude.{◌≡◌, ◌≢◌, ℕ, ◌<◌, ◌↔◌, ◌||◌, true, false, length, pos, IsTrue};
ghost use Rattle.std.specs.Int.{w64, cast_signed, cast_unsigned};
ghost use Rattle.core_steps.specs.declared.step.Step.TheVariants.{Load, Store, Claim};
ghost use Rattle.core_steps.specs.Views.{value_at, may_load, may_store, storing_view, failed_view, holding_view, knowing_view};
ghost use Rattle.shared_words.specs.Seats.{KeepsSeat};
ghost use Rattle.shared_words.specs.Calls.{IsStepOf, FindsFlag, RaisesFlag};

use crate::steps::{ClaimTile, RaiseFlag, SeeFlag, WorkLoad, WorkStore};
use crate::words::{CLAIMS, FLAG, MEMORY, SharedWords};
use atomic_table::Seat;
use core_steps::View;
use std::marker::Model;

/// The seat that main lent to one worker. It may go to another thread, and may be dropped. Contracts see its table
/// and its view.
#[derive(Drop)]
pub struct WorkSeat {
    seat: Seat<(), View>,
    epoch: u64,
}

impl Model for WorkSeat {
    ghost use Rattle.std.specs.Prelude.{◌<◌};
    ghost use Rattle.shared_words.specs.Seats.{SeatState, KeepsSeat};

    ghost Value = { SeatState };

    ghost view = { λ s. record { table = s.seat.table_id; view = s.seat.me.0 } };

    ghost invariant = { λ s. KeepsSeat s.seat.table_id s.seat.me s.epoch × (0 < s.seat.me.0.number) };
}

impl WorkSeat {
    /// The seat that main cut off its own at this epoch.
    pub(crate) fn lent(seat: Seat<(), View>, epoch: u64) -> WorkSeat
        requires keeps { KeepsSeat seat.table_id seat.me epoch }
        requires number { 0 < seat.me.0.number }
        ensures table { result.table ≡ seat.table_id }
        ensures view { result.view ≡ seat.me.0 }
    {
        WorkSeat { seat, epoch }
    }

    /// The seat of the table, for main to take in.
    pub(crate) fn into_seat(self) -> Seat<(), View>
        ensures table { result.table_id ≡ self.table }
        ensures view { result.me.0 ≡ self.view }
        ensures keeps { KeepsSeat result.table_id result.me result.me.0.epoch }
        ensures number { 0 < result.me.0.number }
    {
        let WorkSeat { seat, epoch: _ } = self;
        seat
    }

    /// The seat's own value at an address that is a read or a write of a tile that it holds, or else the base's.
    pub fn load(&mut self, words: &SharedWords, address: u64) -> i64
        requires table { self.old.table ≡ words.now }
        requires tile { may_load self.old.view address ≡ true }
        ensures unchanged { self.new ≡ self.old }
        ensures value { result ≡ cast_signed w64 (value_at self.old.view address) }
        ensures step { let v = self.old.view in IsStepOf v.number v (Load v.number address) result self.new.view }
    {
        words
            .table
            .shared
            .load::<WorkLoad>(&mut self.seat, MEMORY + address as usize)
            .cast_signed()
    }

    /// Sets the word at an address that is a write of a tile that the seat holds.
    pub fn store(&mut self, words: &SharedWords, address: u64, value: i64)
        requires table { self.old.table ≡ words.now }
        requires tile { may_store self.old.view address ≡ true }
        ensures table { self.new.table ≡ self.old.table }
        ensures view { self.new.view ≡ storing_view self.old.view address (cast_unsigned w64 value) }
        ensures step { let v = self.old.view in IsStepOf v.number v (Store v.number address value) (pos 0) self.new.view }
    {
        words.table.shared.store::<WorkStore>(
            &mut self.seat,
            MEMORY + address as usize,
            value.cast_unsigned(),
        );
    }

    /// Claims a tile of the plan by one swap. True exactly where no seat had claimed it in this phase; the seat then
    /// holds the tile. In either case it knows that the tile is claimed.
    pub fn claim(&mut self, words: &SharedWords, tile: u32) -> bool
        requires table { self.old.table ≡ words.now }
        requires tile { tile < length self.old.view.plan.tiles }
        ensures table { self.new.table ≡ self.old.table }
        ensures won { IsTrue result → self.new.view ≡ holding_view self.old.view tile }
        ensures lost { result ≡ false → self.new.view ≡ knowing_view self.old.view tile }
        ensures step { let v = self.old.view in (old : ℕ) × (IsTrue result ↔ (old ≢ v.epoch))
            × IsStepOf v.number v (Claim v.number tile) (pos old) self.new.view }
    {
        let old = words
            .table
            .shared
            .swap::<ClaimTile>(&mut self.seat, CLAIMS + tile as usize, self.epoch);
        old != self.epoch
    }

    /// Raises the flag of this phase.
    pub fn raise(&mut self, words: &SharedWords)
        requires table { self.old.table ≡ words.now }
        ensures table { self.new.table ≡ self.old.table }
        ensures view { self.new.view ≡ failed_view self.old.view }
        ensures step { RaisesFlag self.old.view self.new.view }
    {
        words
            .table
            .shared
            .store::<RaiseFlag>(&mut self.seat, FLAG, self.epoch);
    }

    /// Whether the flag was raised in this phase.
    pub fn raised(&mut self, words: &SharedWords) -> bool
        requires table { self.old.table ≡ words.now }
        ensures table { self.new.table ≡ self.old.table }
        ensures view { self.new.view ≡ record self.old.view { seen = self.old.view.seen || result } }
        ensures step { let v = self.old.view in (flag : ℕ) × (IsTrue result ↔ (flag ≡ v.epoch))
            × FindsFlag v flag self.new.view }
    {
        words.table.shared.load::<SeeFlag>(&mut self.seat, FLAG) == self.epoch
    }
}
