//! The rule of the table, and what each kind of step tells its seat.

use atomic_table::{Join, Play, Split, TableRule};
use core_steps::View;
use std::marker::{Brand, PhantomData};
use std::snapshot::Snapshot;

/// The words and the views of all seats are a state of the core. The key is the words at the start.
pub struct CoreRule;

impl TableRule<(), View, Snapshot<Vec<u64>>> for CoreRule {
    ghost use Rattle.core_steps.specs.States.{memory_of};
    ghost use Rattle.core_steps.specs.Views.{first_view};
    ghost use Rattle.shared_words.specs.Seats.{IsCoreState};

    ghost holds = { λ _ s. IsCoreState s.words s.views };

    ghost first = { λ about. first_view (memory_of about.value.items) };
}

/// Main's load of a memory word between phases.
pub struct MainLoad;

impl Play<(), View> for MainLoad {
    ghost use Rattle.std.specs.Prelude.{◌≡◌, ◌-◌, slice_index};
    ghost use Rattle.std.specs.Int.{w64, cast_signed};
    ghost use Rattle.core_steps.specs.declared.step.Step.TheVariants.{Load};
    ghost use Rattle.shared_words.specs.Calls.{IsStepOf};

    ghost then = { λ s m n w. (w ≡ m) × (n ≡ slice_index m.0.base (s.word - 65537))
        × IsStepOf 0 m.0 (Load 0 (s.word - 65537)) (cast_signed w64 n) m.0 };
}

/// Main's store to a memory word between phases.
pub struct MainStore;

impl Play<(), View> for MainStore {
    ghost use Rattle.std.specs.Prelude.{◌≡◌, ◌-◌, ℤ, pos};
    ghost use Rattle.std.specs.Int.{w64, cast_unsigned};
    ghost use Rattle.core_steps.specs.declared.step.Step.TheVariants.{Store};
    ghost use Rattle.core_steps.specs.Views.{based_view};
    ghost use Rattle.shared_words.specs.Calls.{IsStepOf};

    ghost then = { λ s m n w. (w ≡ (based_view m.0 (s.word - 65537) s.first, m.1))
        × ((x : ℤ) → cast_unsigned w64 x ≡ s.first → IsStepOf 0 m.0 (Store 0 (s.word - 65537) x) (pos 0) w.0) };
}

/// A worker's load of a memory word.
pub struct WorkLoad;

impl Play<(), View> for WorkLoad {
    ghost use Rattle.std.specs.Prelude.{◌≡◌, ◌-◌};
    ghost use Rattle.std.specs.Int.{w64, cast_signed};
    ghost use Rattle.core_steps.specs.declared.step.Step.TheVariants.{Load};
    ghost use Rattle.core_steps.specs.Views.{value_at};
    ghost use Rattle.shared_words.specs.Calls.{IsStepOf};

    ghost then = { λ s m n w. (w ≡ m) × (n ≡ value_at m.0 (s.word - 65537))
        × IsStepOf m.0.number m.0 (Load m.0.number (s.word - 65537)) (cast_signed w64 n) m.0 };
}

/// A worker's store to a memory word.
pub struct WorkStore;

impl Play<(), View> for WorkStore {
    ghost use Rattle.std.specs.Prelude.{◌≡◌, ◌-◌, ℤ, pos};
    ghost use Rattle.std.specs.Int.{w64, cast_unsigned};
    ghost use Rattle.core_steps.specs.declared.step.Step.TheVariants.{Store};
    ghost use Rattle.core_steps.specs.Views.{storing_view};
    ghost use Rattle.shared_words.specs.Calls.{IsStepOf};

    ghost then = { λ s m n w. (w ≡ (storing_view m.0 (s.word - 65537) s.first, m.1))
        × ((x : ℤ) → cast_unsigned w64 x ≡ s.first
        → IsStepOf m.0.number m.0 (Store m.0.number (s.word - 65537) x) (pos 0) w.0) };
}

/// A worker's load of the flag.
pub struct SeeFlag;

impl Play<(), View> for SeeFlag {
    ghost use Rattle.std.specs.Prelude.{◌≡◌};
    ghost use Rattle.core_steps.specs.Views.{seeing_view};
    ghost use Rattle.shared_words.specs.Calls.{FindsFlag};

    ghost then = { λ s m n w. (w ≡ (seeing_view m.0 n, m.1)) × FindsFlag m.0 n w.0 };
}

/// A worker's store of the epoch to the flag.
pub struct RaiseFlag;

impl Play<(), View> for RaiseFlag {
    ghost use Rattle.std.specs.Prelude.{◌≡◌};
    ghost use Rattle.core_steps.specs.Views.{failed_view};
    ghost use Rattle.shared_words.specs.Calls.{RaisesFlag};

    ghost then = { λ s m n w. (w ≡ (failed_view m.0, m.1)) × RaisesFlag m.0 w.0 };
}

/// A worker's swap of the epoch into the claim of a tile.
pub struct ClaimTile;

impl Play<(), View> for ClaimTile {
    ghost use Rattle.std.specs.Prelude.{◌≡◌, ◌-◌, pos};
    ghost use Rattle.core_steps.specs.declared.step.Step.TheVariants.{Claim};
    ghost use Rattle.core_steps.specs.Views.{claiming_view};
    ghost use Rattle.shared_words.specs.Calls.{IsStepOf};

    ghost then = { λ s m n w. (w ≡ (claiming_view m.0 (s.word - 1) n, m.1))
        × IsStepOf m.0.number m.0 (Claim m.0.number (s.word - 1)) (pos n) w.0 };
}

/// Which plan a post is of. The call picks it, since a step has no operand for it.
pub trait Planned {
    ghost use Rattle.core_steps.specs.declared.plan.Plan.{Plan};

    ghost plan: { Plan };
}

impl Planned for Brand {
    ghost use Rattle.core_steps.specs.Plans.{no_plan};

    ghost plan = { no_plan };
}

/// Main's load of the flag that begins a phase.
pub struct PostPlan<J> {
    of: PhantomData<J>,
}

impl<J: Planned> Play<(), View> for PostPlan<J> {
    ghost use Rattle.std.specs.Prelude.{◌≡◌, pos};
    ghost use Rattle.core_steps.specs.declared.step.Step.TheVariants.{Post};
    ghost use Rattle.core_steps.specs.Views.{posted_view};
    ghost use Rattle.shared_words.specs.Calls.{IsStepOf};

    ghost then = { λ s m n w. (w ≡ (posted_view m.0 m.0.base J.plan, m.1)) × IsStepOf 0 m.0 (Post J.plan) (pos 0) w.0 };
}

/// Main's load of the flag that ends a phase.
pub struct SettlePhase;

impl Play<(), View> for SettlePhase {
    ghost use Rattle.std.specs.Prelude.{◌≡◌};
    ghost use Rattle.core_steps.specs.Views.{settled_view, overlaid};
    ghost use Rattle.shared_words.specs.Calls.{EndsPhase};

    ghost then = { λ s m n w. (w ≡ (settled_view m.0 (overlaid m.0.own m.0.base), m.1)) × EndsPhase m.0 n w.0 };
}

/// Which number a seat is split off for. The call picks it.
pub trait Numbered {
    ghost use Rattle.std.specs.Prelude.{ℕ};

    ghost number: { ℕ };
}

impl Numbered for Brand {
    ghost number = { 0 };
}

/// A worker's seat is cut off main's.
pub struct SplitSeat<J> {
    of: PhantomData<J>,
}

impl<J: Numbered> Split<View> for SplitSeat<J> {
    ghost use Rattle.core_steps.specs.Views.{lending_view, lent_view};

    ghost left = { λ v. lending_view v J.number };

    ghost right = { λ v. lent_view v J.number };
}

/// Main's seat takes a worker's in.
pub struct JoinSeat;

impl Join<View> for JoinSeat {
    ghost use Rattle.core_steps.specs.Views.{joined_view, spent_view};

    ghost both = { joined_view };

    ghost spent = { spent_view };
}
