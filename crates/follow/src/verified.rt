//! One instance, run from its expected scalars over a port that verifies its accesses by itself, and compared with what
//! is expected of it.

ghost use Rattle.std.specs.Prelude.{◌≡◌, ◌<◌, ◌≤◌, ◌^◌, ℕ, true, pos, [], length, slice_index_or, IsOk, FitsSigned};
ghost use Rattle.std.specs.Int.{w64};
ghost use Rattle.nest_lang.specs.Accesses.{block_accesses, head_accesses};
ghost use Rattle.nest_lang.specs.Rules.{strides};
ghost use Rattle.nest_lang.specs.Stores.{store_of};
ghost use Rattle.nest_lang.specs.Traces.{Occurrence, cut};
ghost use Rattle.nest_lang.specs.Statements.{instance_trace};
ghost use Rattle.block_exec.specs.Sites.{frame_at};
ghost use Rattle.follow.specs.Forecasts.{Forecast, expectation_at};
ghost use Rattle.follow.specs.Followed.{Foretold, IsFollowed, occurrence_at};
ghost use Rattle.follow.specs.Told.{told};
ghost use Rattle.follow.specs.Plans.{work_trace, Evaluates};
ghost use Rattle.follow.specs.Turnings.{IsTurning};
ghost use Rattle.follow.specs.Verifies.{VerifiesOwn};

use crate::expected::Expected;
use crate::head::head_over;
use crate::how::{Differs, How, Turning, compare_scalars, cut_short};
use block_exec::{Blind, Halt, Port, Run, Site};
use nest_lang::{Budget, Head, Stmt};

/// Runs an instance of a block that has statements, with these scalars, over a port that verifies its accesses by itself,
/// and compares it with what is expected of it: each address before a word is touched, which the port does, and after
/// the last statement each scalar. For every forecast that says what is expected, where the port expects these intervals,
/// it gives the steps, which are at most those left, or that it differs; `how` then says how it differs first. The port's
/// words are those after the steps that were taken; where it doesn't differ, the scalars that are expected after it are
/// i64s. The steps left are at most 2^32, and there are at most 256 scalars. In line, so that nothing is put by for its
/// caller.
#[inline(always)]
pub fn follow_block_verified<P: Port, E: Expected>(
    site: &Site<'_>,
    block: &[Stmt],
    expected: &E,
    scalars: &mut [i64],
    port: &mut P,
    left: u64,
    how: &mut How,
) -> Result<u64, Differs>
    requires steps { left ≤ 2 ^ 32 }
    requires scalars { length scalars.old ≤ 256 }
    ensures followed { (p : Forecast) (next : Occurrence) → Foretold p (occurrence_at site.now) next scalars.old (E.intervals expected.now) (E.after expected.now) → VerifiesOwn (P.expects port.old) (E.intervals expected.now) (block_accesses block.now)
        → IsFollowed p next (instance_trace (frame_at site.now (expectation_at p (occurrence_at site.now))) block.now (store_of (P.memory port.old) scalars.old [])) (store_of (P.memory port.old) scalars.old []) left (told result how.new) (P.memory port.new) }
    ensures words { P.memory port.new ≡ (cut (instance_trace (frame_at site.now (P.expects port.old)) block.now (store_of (P.memory port.old) scalars.old [])) (store_of (P.memory port.old) scalars.old []) left 0).store.memory }
    ensures fits { IsOk result → (k : ℕ) → k < length scalars.old → FitsSigned w64 (slice_index_or (E.after expected.now) k (pos 0)) }
    ensures expects { P.expects port.new ≡ P.expects port.old }
    ensures basis { P.basis port.new ≡ P.basis port.old }
{
    let mut watch = Blind;
    let mut run = Run {
        scalars,
        locals: [0; 16],
        port,
        steps: Budget { left, used: 0 },
        watch: &mut watch,
        halt: Halt::NONE,
    };
    if let Err(cut) = run.block(site, block) {
        return cut_short(cut, &run.halt, how);
    }
    match compare_scalars(expected, run.scalars, how) {
        Ok(()) => Ok(run.steps.used),
        Err(differs) => Err(differs),
    }
}

/// Evaluates an instance of a head with these scalars, over a port that verifies its accesses by itself, and compares it
/// with what is expected of it: each address before a word is touched, the lower bound and the trip of a `for` or the
/// condition of a `while`, and then each scalar. For every forecast that says what is expected, where the port expects
/// these intervals, it gives the steps or that it differs; `how` then says how it differs first. It leaves the words and
/// the scalars. The steps left are at most 2^32, there are at most 256 scalars, and a stride is not 0.
pub fn follow_head_verified<P: Port, E: Expected>(
    site: &Site<'_>,
    head: &Head,
    expected: &E,
    turning: Turning,
    scalars: &mut [i64],
    port: &mut P,
    left: u64,
    how: &mut How,
) -> Result<u64, Differs>
    requires steps { left ≤ 2 ^ 32 }
    requires scalars { length scalars.old ≤ 256 }
    requires strides { strides head.now ≡ true }
    ensures followed { (p : Forecast) (next : Occurrence) → Foretold p (occurrence_at site.now) next scalars.old (E.intervals expected.now) (E.after expected.now) → VerifiesOwn (P.expects port.old) (E.intervals expected.now) (head_accesses head.now)
        → IsTurning p (occurrence_at site.now) head.now turning
        → IsFollowed p next (work_trace (frame_at site.now (expectation_at p (occurrence_at site.now))) (Evaluates head.now) (store_of (P.memory port.old) scalars.old [])) (store_of (P.memory port.old) scalars.old []) left (told result how.new) (P.memory port.new) }
    ensures memory { P.memory port.new ≡ P.memory port.old }
    ensures fits { IsOk result → (k : ℕ) → k < length scalars.old → FitsSigned w64 (slice_index_or (E.after expected.now) k (pos 0)) }
    ensures expects { P.expects port.new ≡ P.expects port.old }
    ensures basis { P.basis port.new ≡ P.basis port.old }
{
    let ended = head_over(site, head, scalars, port, left);
    let yielded = match ended.yielded {
        Ok(yielded) => yielded,
        Err(cut) => return cut_short(cut, &ended.halt, how),
    };
    if let Some(first) = How::of_turns(site.block.level, turning, yielded) {
        *how = first;
        return Err(Differs);
    }
    match compare_scalars(expected, scalars, how) {
        Ok(()) => Ok(ended.steps.used),
        Err(differs) => Err(differs),
    }
}
