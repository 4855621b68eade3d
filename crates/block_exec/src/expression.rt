//! Evaluation of expressions.

ghost use Rattle.std.specs.Prelude.{◌≡◌};
ghost use Rattle.nest_lang.specs.Lookups.{look_load};
ghost use Rattle.nest_lang.specs.Expressions.{told_by};
ghost use Rattle.block_exec.specs.Watches.{Chain};
ghost use Rattle.block_exec.specs.Halts.{answer_of};
ghost use Rattle.block_exec.specs.Runs.{Looked, told_at};

use crate::context::Run;
use crate::halt::Halted;
use crate::port::Port;
use crate::site::Site;
use crate::watch::Watch;
use nest_lang::{Expr, apply, negate};

impl<P: Port, W: Watch> Run<'_, P, W> {
    /// The value of an expression. Each address is shown before the port is asked.
    #[cycle(evaluate)]
    #[inline(always)]
    #[tactic(auto, using(crate::proofs::ExpressionLaws::evaluates))]
    pub(crate) fn evaluate(&mut self, site: &Site<'_>, expr: &Expr) -> Result<i64, Halted>
        ensures value { answer_of result self.new.halt ≡ (told_at P.memory P.expects site.now self.old expr.now).value }
        ensures watch { Chain W.may self.old.watch.now (told_at P.memory P.expects site.now self.old expr.now).seen self.new.watch.now }
        ensures looked { Looked P.memory P.expects P.basis self.old self.new }
    {
        match expr {
            Expr::Number(number) => Ok(*number),
            Expr::Var(place) => Ok(self.value(site, *place)),
            _ => self.evaluate_parts(site, expr),
        }
    }

    /// The same, out of line: most operands are numbers and names, whose value needs no call.
    #[cycle(evaluate)]
    #[inline(never)]
    #[tactic(auto, using(crate::proofs::ExpressionLaws::evaluates))]
    fn evaluate_parts(&mut self, site: &Site<'_>, expr: &Expr) -> Result<i64, Halted>
        ensures value { answer_of result self.new.halt ≡ (told_at P.memory P.expects site.now self.old expr.now).value }
        ensures watch { Chain W.may self.old.watch.now (told_at P.memory P.expects site.now self.old expr.now).seen self.new.watch.now }
        ensures looked { Looked P.memory P.expects P.basis self.old self.new }
    {
        match expr {
            Expr::Number(number) => Ok(*number),
            Expr::Var(place) => Ok(self.value(site, *place)),
            Expr::Load(access, address) => {
                let address = self.evaluate(site, address.get())?;
                self.load(site, *access, address)
            }
            Expr::Neg(operand) => {
                let value = self.evaluate(site, operand.get())?;
                self.or_trap(negate(value))
            }
            Expr::Two(op, left, right) => {
                let left = self.evaluate(site, left.get())?;
                let right = self.evaluate(site, right.get())?;
                self.or_trap(apply(*op, left, right))
            }
        }
    }
}
