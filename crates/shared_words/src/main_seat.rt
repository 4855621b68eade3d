//! The seat of the one that begins and ends phases.
ghost use Rattle.std.specs.Prelude.{◌≡◌, ℕ, ◌-◌, ◌<◌, ◌≤◌, ◌^◌, ◌↔◌, true, false, [], length, pos, slice_index, IsTrue};
ghost use Rattle.std.specs.Int.{w64, cast_signed, cast_unsigned};
ghost use Rattle.core_steps.specs.declared.step.Step.TheVariants.{Post, Load, Store};
ghost use Rattle.core_steps.specs.Numbers.{has};
ghost use Rattle.core_steps.specs.Plans.{IsSeparate, IsInside};
ghost use Rattle.core_steps.specs.Views.{posted_view, lending_view, lent_view, joined_view, settled_view, based_view, overlaid};
ghost use Rattle.shared_words.specs.Seats.{memory_words, KeepsSeat};
ghost use Rattle.shared_words.specs.Calls.{IsStepOf, EndsPhase};

use crate::steps::{
    JoinSeat, MainLoad, MainStore, Numbered, Planned, PostPlan, SettlePhase, SplitSeat,
};
use crate::words::{FLAG, MEMORY, SharedWords};
use crate::work_seat::WorkSeat;
use atomic_table::Seat;
use core_steps::{Plan, View};
use std::marker::{Brand, Model};

/// The seat that begins and ends phases, and that alone touches the memory between them. There is one for a table.
/// Contracts see its table and its view.
#[derive(Drop)]
pub struct MainSeat {
    seat: Seat<(), View>,
    epoch: u64,
}

impl Model for MainSeat {
    ghost use Rattle.std.specs.Prelude.{◌≡◌};
    ghost use Rattle.shared_words.specs.Seats.{SeatState, KeepsSeat};

    ghost Value = { SeatState };

    ghost view = { λ s. record { table = s.seat.table_id; view = s.seat.me.0 } };

    ghost invariant = { λ s. KeepsSeat s.seat.table_id s.seat.me s.epoch × (s.seat.id ≡ 0) };
}

impl MainSeat {
    /// The seat at epoch 0.
    pub(crate) fn first(seat: Seat<(), View>) -> MainSeat
        requires seat { seat.id ≡ 0 }
        requires keeps { KeepsSeat seat.table_id seat.me 0 }
        ensures table { result.table ≡ seat.table_id }
        ensures view { result.view ≡ seat.me.0 }
    {
        MainSeat { seat, epoch: 0 }
    }

    /// Begins a phase with this plan: the epoch rises by one. No plan may be posted, the plan is to be separate,
    /// with at most 65,536 tiles and words alone as its addresses, and the epoch below 2^63 - 1.
    pub fn post(&mut self, words: &SharedWords, plan: &Plan)
        requires table { self.old.table ≡ words.now }
        requires unposted { self.old.view.posted ≡ false }
        requires separate { IsSeparate plan.now }
        requires few { length plan.now.tiles ≤ 65536 }
        requires inside { IsInside (length self.old.view.base) plan.now }
        requires epoch { self.old.view.epoch < 2 ^ 63 - 1 }
        ensures table { self.new.table ≡ self.old.table }
        ensures view { self.new.view ≡ posted_view self.old.view self.old.view.base plan.now }
        ensures step { IsStepOf 0 self.old.view (Post plan.now) (pos 0) self.new.view }
    {
        self.post_as::<Brand>(words, plan);
    }

    fn post_as<J: Planned>(&mut self, words: &SharedWords, plan: &Plan)
        requires picked { plan.now ≡ J.plan }
        requires table { self.old.table ≡ words.now }
        requires unposted { self.old.view.posted ≡ false }
        requires separate { IsSeparate plan.now }
        requires few { length plan.now.tiles ≤ 65536 }
        requires inside { IsInside (length self.old.view.base) plan.now }
        requires epoch { self.old.view.epoch < 2 ^ 63 - 1 }
        ensures table { self.new.table ≡ self.old.table }
        ensures view { self.new.view ≡ posted_view self.old.view self.old.view.base plan.now }
        ensures step { IsStepOf 0 self.old.view (Post plan.now) (pos 0) self.new.view }
    {
        let _ = words.table.shared.load::<PostPlan<J>>(&mut self.seat, FLAG);
        self.epoch += 1;
    }

    /// Lends a seat to the worker of this number, which is at least 1 and not out, while a plan is posted.
    pub fn split(&mut self, words: &SharedWords, worker: u32) -> WorkSeat
        requires table { self.old.table ≡ words.now }
        requires posted { self.old.view.posted ≡ true }
        requires number { 0 < worker }
        requires fresh { has worker self.old.view.out ≡ false }
        ensures table { (self.new.table ≡ self.old.table) × (result.table ≡ self.old.table) }
        ensures main { self.new.view ≡ lending_view self.old.view worker }
        ensures worker { result.view ≡ lent_view self.old.view worker }
        ensures count { memory_words self.old.table ≡ length self.old.view.base }
    {
        self.split_as::<Brand>(words, worker)
    }

    fn split_as<J: Numbered>(&mut self, words: &SharedWords, worker: u32) -> WorkSeat
        requires picked { worker ≡ J.number }
        requires table { self.old.table ≡ words.now }
        requires posted { self.old.view.posted ≡ true }
        requires number { 0 < worker }
        requires fresh { has worker self.old.view.out ≡ false }
        ensures table { (self.new.table ≡ self.old.table) × (result.table ≡ self.old.table) }
        ensures main { self.new.view ≡ lending_view self.old.view worker }
        ensures worker { result.view ≡ lent_view self.old.view worker }
        ensures count { memory_words self.old.table ≡ length self.old.view.base }
    {
        let _worker = worker;
        let seat = words
            .table
            .shared
            .split_seat::<SplitSeat<J>>(&mut self.seat);
        WorkSeat::lent(seat, self.epoch)
    }

    /// Takes a seat back, with its own values, its tiles and its failure. A seat that is dropped in place of this
    /// stays out.
    pub fn join(&mut self, words: &SharedWords, seat: WorkSeat)
        requires main { self.old.table ≡ words.now }
        requires worker { seat.table ≡ words.now }
        ensures table { self.new.table ≡ self.old.table }
        ensures view { self.new.view ≡ joined_view self.old.view seat.view }
    {
        let seat = seat.into_seat();
        words
            .table
            .shared
            .join_seat::<JoinSeat>(&mut self.seat, seat);
    }

    /// Ends the phase, when no seat is out, and says whether the flag was raised in it.
    pub fn settle(&mut self, words: &SharedWords) -> bool
        requires table { self.old.table ≡ words.now }
        requires posted { self.old.view.posted ≡ true }
        requires none_out { self.old.view.out ≡ [] }
        ensures table { self.new.table ≡ self.old.table }
        ensures view { let m = self.old.view in self.new.view ≡ settled_view m (overlaid m.own m.base) }
        ensures length { length self.new.view.base ≡ length self.old.view.base }
        ensures step { let m = self.old.view in (flag : ℕ) × (IsTrue result ↔ (flag ≡ m.epoch))
            × EndsPhase m flag self.new.view }
    {
        words.table.shared.load::<SettlePhase>(&mut self.seat, FLAG) == self.epoch
    }

    /// How many memory words there are: every address below this is that of a word.
    pub fn count(&self, words: &SharedWords) -> u64
        requires { self.now.table ≡ words.now }
        ensures { result ≡ length self.now.view.base }
    {
        let _seat = &self.seat;
        words.count()
    }

    /// The word at an address of the memory, where no plan is posted.
    pub fn load(&mut self, words: &SharedWords, address: u64) -> i64
        requires table { self.old.table ≡ words.now }
        requires unposted { self.old.view.posted ≡ false }
        requires word { address < length self.old.view.base }
        ensures unchanged { self.new ≡ self.old }
        ensures value { result ≡ cast_signed w64 (slice_index self.old.view.base address) }
        ensures step { IsStepOf 0 self.old.view (Load 0 address) result self.new.view }
    {
        words
            .table
            .shared
            .load::<MainLoad>(&mut self.seat, MEMORY + address as usize)
            .cast_signed()
    }

    /// Sets the word at an address of the memory, where no plan is posted.
    pub fn store(&mut self, words: &SharedWords, address: u64, value: i64)
        requires table { self.old.table ≡ words.now }
        requires unposted { self.old.view.posted ≡ false }
        requires word { address < length self.old.view.base }
        ensures table { self.new.table ≡ self.old.table }
        ensures view { self.new.view ≡ based_view self.old.view address (cast_unsigned w64 value) }
        ensures step { IsStepOf 0 self.old.view (Store 0 address value) (pos 0) self.new.view }
    {
        words.table.shared.store::<MainStore>(
            &mut self.seat,
            MEMORY + address as usize,
            value.cast_unsigned(),
        );
    }
}
