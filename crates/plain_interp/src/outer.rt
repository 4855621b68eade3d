//! Some turns of the outermost loop.

ghost use Rattle.std.specs.Prelude.{◌≡◌, ◌+◌, ◌<◌, ◌≤◌, ◌^◌, ℕ, ◌+ℤ◌, FitsSigned, pos, ◌∷◌, [], length, true, false, ◌≤ℤ◌, Err};
ghost use Rattle.std.specs.Int.{w64};
ghost use Rattle.nest_lang.specs.Rules.{loops_keep};
ghost use Rattle.nest_lang.specs.Loops.{Around};
ghost use Rattle.nest_lang.specs.Turns.{turns_trace, finish_of_turned, turns_later, AreWhole, IsPosition, IsPositionIn};
ghost use Rattle.block_exec.specs.Moments.{RanWithin};
ghost use Rattle.block_exec.specs.Halts.{IsTrap, finish_of};
ghost use Rattle.block_exec.specs.Runs.{Kept, outside};
ghost use Rattle.plain_interp.specs.Levels.{IsLevel, level_turn};
ghost use Rattle.plain_interp.specs.Entries.{IsEntry};

use crate::loops::{Level, run_turn};
use block_exec::{Cut, Halt, Places, Port, Registers, Run, Watch};
use nest_lang::{BlockRef, Head, Nest, Outer, Part, Trap, Turned, value_of_turn};

/// The head of the outermost loop.
const HEAD: BlockRef = BlockRef {
    part: Part::Head,
    level: 1,
};

/// How the outermost loop was entered.
#[derive(Clone, Copy, Debug, PartialEq, Eq)]
pub enum Entered {
    /// It stands before its first turn.
    At(Outer),
    /// The step of its head trapped.
    Trapped(Trap),
    /// The step of its head is due, and none is left.
    Limited,
}

/// Enters the outermost loop: evaluates the head of a `for`, which is one step, and takes no step for a
/// `while` (docs/DEFINITIONS.md, Turns). The watch is shown what that head shows. The port does not verify,
/// and is left as it was; there are at most 256 scalars. `Limited` comes exactly where the step is due and
/// none is left.
pub fn enter<P: Port, W: Watch>(run: &mut Run<'_, P, W>, nest: &Nest) -> Entered
    requires steps { run.old.steps.left + run.old.steps.used ≤ 2 ^ 32 }
    requires scalars { length run.old.scalars.now ≤ 256 }
    requires rules { loops_keep nest.now.loops ≡ true }
    requires plain { (P.expects run.old.port.now).verifies ≡ false }
    ensures entry { IsEntry W.may nest.now.loops (P.expects run.old.port.now) (outside P.memory run.old) (outside P.memory run.new) result }
    ensures position { (outer : _) → result ≡ Entered.At outer → IsPositionIn nest.now.loops outer × (outer.next ≡ pos 0) }
    ensures kept { Kept P.expects P.basis run.old run.new }
{
    let Some(first) = nest.loops.get(0) else {
        unreachable!()
    };
    run.halt = Halt::NONE;
    match &first.head {
        Head::For(lower, upper, stride) => {
            let places = Places::new();
            match run.bounds(&places.site(HEAD, 0), lower, upper, *stride) {
                Ok(bounds) => Entered::At(Outer {
                    lower: bounds.lower,
                    next: 0,
                    left: Some(bounds.trip),
                }),
                Err(Cut::Halted) => Entered::Trapped(run.halt.trap()),
                Err(Cut::Limited) => Entered::Limited,
            }
        }
        Head::While(_) => Entered::At(Outer {
            lower: 0,
            next: 0,
            left: None,
        }),
    }
}

/// Runs so many turns of a nest in original order, from a position of its outermost loop on
/// (docs/DEFINITIONS.md, Turns). `Went` comes exactly where all were run, `Ended` exactly where the loop
/// ended earlier, and `outer.next` rises by the whole turns done. `Limited` comes exactly where a step is
/// due and none is left. The port does not verify; there are at most 256 scalars.
pub fn run_turns<P: Port, W: Watch>(
    run: &mut Run<'_, P, W>,
    nest: &Nest,
    outer: &mut Outer,
    turns: u64,
) -> Turned
    requires steps { run.old.steps.left + run.old.steps.used ≤ 2 ^ 32 }
    requires scalars { length run.old.scalars.now ≤ 256 }
    requires rules { loops_keep nest.now.loops ≡ true }
    requires plain { (P.expects run.old.port.now).verifies ≡ false }
    requires position { IsPositionIn nest.now.loops outer.old }
    requires number { FitsSigned w64 (outer.old.next +ℤ pos run.old.steps.left) }
    ensures ran { RanWithin W.may (λ k. turns_trace (P.expects run.old.port.now) k nest.now.loops outer.old turns) (outside P.memory run.old) (outside P.memory run.new) (finish_of_turned result) }
    ensures outer { (j : ℕ) × (outer.new ≡ turns_later outer.old j)
        × ((k : ℕ) → run.old.steps.left < k →
        AreWhole (turns_trace (P.expects run.old.port.now) k nest.now.loops outer.old) (outside P.memory run.old).store run.old.steps.left turns j) }
    ensures position { IsPositionIn nest.now.loops outer.new }
    ensures number { FitsSigned w64 (outer.new.next +ℤ pos run.new.steps.left) }
    ensures kept { Kept P.expects P.basis run.old run.new }
{
    let Some((first, rest)) = nest.loops.as_slice().split_first() else {
        unreachable!()
    };
    run.halt = Halt::NONE;
    let outermost = Level {
        first,
        rest,
        depth: 0,
        codes: &[],
    };
    let mut registers = Registers::new();
    for _done in 0..turns {
        match run_next(run, &outermost, outer, &mut registers) {
            Turned::Went => {}
            end => return end,
        }
    }
    Turned::Went
}

/// Runs one more turn of the outermost loop.
fn run_next<P: Port, W: Watch>(
    run: &mut Run<'_, P, W>,
    at: &Level<'_>,
    outer: &mut Outer,
    registers: &mut Registers,
) -> Turned
    requires steps { run.old.steps.left + run.old.steps.used ≤ 2 ^ 32 }
    requires scalars { length run.old.scalars.now ≤ 256 }
    requires level { IsLevel at.now }
    requires outermost { at.now.depth ≡ 0 }
    requires plain { (P.expects run.old.port.now).verifies ≡ false }
    requires halt { IsTrap run.old.halt }
    requires position { IsPosition at.now.first.now.head outer.old }
    requires number { FitsSigned w64 (outer.old.next +ℤ pos run.old.steps.left) }
    ensures ran { RanWithin W.may (λ k. turns_trace (P.expects run.old.port.now) k (at.now.first.now ∷ at.now.rest.now) outer.old 1) (outside P.memory run.old) (outside P.memory run.new) (finish_of_turned result) }
    ensures went { result ≡ Turned.Went → (outer.new ≡ turns_later outer.old 1) × (run.new.steps.left < run.old.steps.left) }
    ensures others { (result ≡ Turned.Went → ⊥) → outer.new ≡ outer.old }
    ensures position { IsPosition at.now.first.now.head outer.new }
    ensures kept { Kept P.expects P.basis run.old run.new }
{
    let turn = outer.next;
    match &at.first.head {
        Head::For(_, _, stride) => {
            if outer.left == Some(0) {
                return Turned::Ended;
            }
            let value = value_of_turn(outer.lower, *stride, turn as u64);
            run_from(run, value, at, outer, registers)
        }
        Head::While(condition) => {
            let mut places = Places::new();
            places.begin(0, turn as u64, turn);
            match run.condition(&places.site(HEAD, 1), condition) {
                Ok(true) => run_from(run, turn, at, outer, registers),
                Ok(false) => Turned::Ended,
                Err(cut) => turned_of(cut, run.halt),
            }
        }
    }
}

/// Runs the turn that is next, in which the loop's name has this value.
fn run_from<P: Port, W: Watch>(
    run: &mut Run<'_, P, W>,
    value: i64,
    at: &Level<'_>,
    outer: &mut Outer,
    registers: &mut Registers,
) -> Turned
    requires steps { run.old.steps.left + run.old.steps.used ≤ 2 ^ 32 }
    requires scalars { length run.old.scalars.now ≤ 256 }
    requires level { IsLevel at.now }
    requires outermost { at.now.depth ≡ 0 }
    requires plain { (P.expects run.old.port.now).verifies ≡ false }
    requires halt { IsTrap run.old.halt }
    requires turn { pos 0 ≤ℤ outer.old.next }
    requires number { FitsSigned w64 (outer.old.next +ℤ pos run.old.steps.left) }
    ensures ran { let place : Around = record { counters = outer.old.next ∷ []; values = value ∷ [] } in
        RanWithin W.may (level_turn (P.expects run.old.port.now) at.now place) (outside P.memory run.old) (outside P.memory run.new) (finish_of_turned result) }
    ensures went { result ≡ Turned.Went → (outer.new ≡ turns_later outer.old 1) × (run.new.steps.left < run.old.steps.left) }
    ensures others { (result ≡ Turned.Went → ⊥) → outer.new ≡ outer.old }
    ensures kept { Kept P.expects P.basis run.old run.new }
{
    let mut places = Places::new();
    places.begin(0, outer.next as u64, value);
    match run_turn(run, at, &mut places, registers) {
        Ok(()) => {
            advance(outer);
            Turned::Went
        }
        Err(cut) => turned_of(cut, run.halt),
    }
}

/// How turns end that were cut short, where no address is verified.
fn turned_of(cut: Cut, halt: Halt) -> Turned
    requires { IsTrap halt }
    ensures finish { finish_of_turned result ≡ finish_of (Err cut) halt }
    ensures other { result ≡ Turned.Went → ⊥ }
{
    match cut {
        Cut::Halted => Turned::Trapped(halt.trap()),
        Cut::Limited => Turned::Limited,
    }
}

/// One turn was done.
fn advance(outer: &mut Outer)
    requires { FitsSigned w64 (outer.old.next +ℤ pos 1) }
    ensures { outer.new ≡ turns_later outer.old 1 }
{
    outer.next += 1;
    if let Some(left) = outer.left {
        outer.left = Some(left.saturating_sub(1));
    }
}
