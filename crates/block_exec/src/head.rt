//! Evaluation of loop heads.

ghost use Rattle.std.specs.Prelude.{◌≡◌, ◌≢◌, ◌≤◌, ◌+◌, ◌^◌, IfOk, length, not, pos, ◌∷◌, []};
ghost use Rattle.nest_lang.specs.declared.observe.Seen.TheVariants.{Lower, Trip};
ghost use Rattle.nest_lang.specs.declared.tree.Head.TheVariants.{For, While};
ghost use Rattle.nest_lang.specs.Values.{same};
ghost use Rattle.nest_lang.specs.Heads.{head_of, as_number};
ghost use Rattle.nest_lang.specs.Heads as heads;
ghost use Rattle.block_exec.specs.Watches.{Chain, observed};
ghost use Rattle.block_exec.specs.Sites.{frame_at};
ghost use Rattle.block_exec.specs.Moments.{Evaluated};
ghost use Rattle.block_exec.specs.Halts.{TurnsFit, bounds_yield, yield_of, yield_where_left};
ghost use Rattle.block_exec.specs.Runs.{Looked, OnlyShown, Kept, within, outside};

use crate::context::Run;
use crate::halt::{Cut, Halted};
use crate::port::Port;
use crate::site::Site;
use crate::watch::Watch;
use nest_lang::{Expr, Seen, trip_of};

/// The turns of a `for` that was entered: the value of its name in the first, what each adds to it, and
/// their number.
#[derive(Clone, Copy, Debug, PartialEq, Eq)]
pub struct Bounds {
    pub lower: i64,
    pub stride: i64,
    pub trip: u64,
}

impl<P: Port, W: Watch> Run<'_, P, W> {
    /// Evaluates the head of a `for`, which is one step and changes nothing: the lower bound, then the
    /// upper one. The stride is not 0, and there are at most 256 scalars. It shows the watch `Start` and
    /// each scalar, also where no step is left, then each address before the port is asked, and last the
    /// lower bound and the number of turns. `Limited` comes exactly where no step is left.
    #[tactic(auto, using(crate::proofs::HeadLaws::heads))]
    pub fn bounds(
        &mut self,
        site: &Site<'_>,
        lower: &Expr,
        upper: &Expr,
        stride: i64,
    ) -> Result<Bounds, Cut>
        requires steps { self.old.steps.left + self.old.steps.used ≤ 2 ^ 32 }
        requires scalars { length self.old.scalars.now ≤ 256 }
        requires stride { stride ≢ pos 0 }
        ensures evaluated { Evaluated W.may (frame_at site.now (P.expects self.old.port.now)) (For lower.now upper.now stride) (outside P.memory self.old) (outside P.memory self.new) (yield_where_left bounds_yield result self.new.halt) }
        ensures kept { Kept P.expects P.basis self.old self.new }
        ensures turns { IfOk result (λ b. (b.stride ≡ stride) × TurnsFit b) }
    {
        self.announce(site);
        if !self.steps.take() {
            return Err(Cut::Limited);
        }
        self.locals = [0; 16];
        let bounds = self.bounds_here(site, lower, upper, stride)?;
        Ok(bounds)
    }

    /// Evaluates the head of a `while`, which is one step and changes nothing: whether its condition
    /// holds. It shows the watch as `bounds` does, and last the condition. There are at most 256 scalars.
    /// `Limited` comes exactly where no step is left.
    #[tactic(auto, using(crate::proofs::HeadLaws::heads))]
    pub fn condition(&mut self, site: &Site<'_>, condition: &Expr) -> Result<bool, Cut>
        requires steps { self.old.steps.left + self.old.steps.used ≤ 2 ^ 32 }
        requires scalars { length self.old.scalars.now ≤ 256 }
        ensures evaluated { Evaluated W.may (frame_at site.now (P.expects self.old.port.now)) (While condition.now) (outside P.memory self.old) (outside P.memory self.new) (yield_where_left heads.Tested result self.new.halt) }
        ensures kept { Kept P.expects P.basis self.old self.new }
    {
        self.announce(site);
        if !self.steps.take() {
            return Err(Cut::Limited);
        }
        self.locals = [0; 16];
        let holds = self.condition_here(site, condition)?;
        Ok(holds)
    }

    /// The bounds of a `for`, at the locals as they are.
    #[tactic(auto, using(crate::proofs::ExpressionLaws::yields))]
    fn bounds_here(
        &mut self,
        site: &Site<'_>,
        lower: &Expr,
        upper: &Expr,
        stride: i64,
    ) -> Result<Bounds, Halted>
        requires { stride ≢ pos 0 }
        ensures value { yield_of bounds_yield result self.new.halt ≡ (head_of (frame_at site.now (P.expects self.old.port.now)) (For lower.now upper.now stride) (within P.memory self.old).store).value }
        ensures watch { Chain W.may self.old.watch.now (head_of (frame_at site.now (P.expects self.old.port.now)) (For lower.now upper.now stride) (within P.memory self.old).store).seen self.new.watch.now }
        ensures looked { Looked P.memory P.expects P.basis self.old self.new }
        ensures turns { IfOk result (λ b. (b.stride ≡ stride) × TurnsFit b) }
    {
        let from = self.evaluate(site, lower)?;
        let to = self.evaluate(site, upper)?;
        let trip = trip_of(from, to, stride);
        self.show_bounds(site, from, trip);
        Ok(Bounds {
            lower: from,
            stride,
            trip,
        })
    }

    /// Whether a condition holds, at the locals as they are.
    #[tactic(auto, using(crate::proofs::ExpressionLaws::yields))]
    fn condition_here(&mut self, site: &Site<'_>, condition: &Expr) -> Result<bool, Halted>
        ensures value { yield_of heads.Tested result self.new.halt ≡ (head_of (frame_at site.now (P.expects self.old.port.now)) (While condition.now) (within P.memory self.old).store).value }
        ensures watch { Chain W.may self.old.watch.now (head_of (frame_at site.now (P.expects self.old.port.now)) (While condition.now) (within P.memory self.old).store).seen self.new.watch.now }
        ensures looked { Looked P.memory P.expects P.basis self.old self.new }
    {
        let value = self.evaluate(site, condition)?;
        let holds = is_not_zero(value);
        self.show(site, Seen::Condition, number_of(holds));
        Ok(holds)
    }

    /// Shows a lower bound and a number of turns.
    #[tactic(auto, using(crate::proofs::ExpressionLaws::yields))]
    pub(crate) fn show_bounds(&mut self, site: &Site<'_>, lower: i64, trip: u64)
        ensures shown { Chain W.may self.old.watch.now (observed site.now.block site.now.counters.now Lower lower ∷ observed site.now.block site.now.counters.now Trip (pos trip) ∷ []) self.new.watch.now }
        ensures rest { OnlyShown self.old self.new }
    {
        self.show(site, Seen::Lower, lower);
        self.show_count(site, Seen::Trip, trip);
    }
}

/// A condition holds where its value is not 0.
pub(crate) fn is_not_zero(value: i64) -> bool
    ensures { result ≡ not (same value (pos 0)) }
{
    value != 0
}

/// A condition as it is shown.
pub(crate) fn number_of(holds: bool) -> i64
    ensures { result ≡ as_number holds }
{
    i64::from(holds)
}
