//! Where an instance runs: the turn numbers of the loops around it, and the values of their names.

ghost use Rattle.std.specs.Prelude.{◌≡◌, ◌<◌, ◌≤◌, ◌+◌, take, FitsSigned};
ghost use Rattle.std.specs.Int.{w64};
ghost use Rattle.nest_lang.specs.Lookups.{Expectation};
ghost use Rattle.nest_lang.specs.Loops.{frame_of};
ghost use Rattle.block_exec.specs.Sites.{frame_at};
ghost use Rattle.domain.specs.Tables.{cut, counters};
ghost use Rattle.domain.specs.Instances.{block_of, Predicted};
ghost use Rattle.follow.specs.Instances.{lower_at};
ghost use Rattle.follow_chunk.specs.Predicted.{forecast_of};
ghost use Rattle.follow_chunk.specs.Items.{around_of, name_value};
ghost use Rattle.follow_chunk.specs.Tasks.{task_of, IsSomeTask};

use crate::task::Task;
use block_exec::{Site, value_of_turn};
use domain::Instance;
use nest_lang::{BlockRef, Head};

/// The first counters, and zeros in place of the others.
pub fn cut<const D: usize>(at: &[i64; D], places: usize) -> [i64; D]
    requires { D < 7 }
    ensures { result ≡ cut places at.now }
{
    let mut point = *at;
    for place in places..D {
        point[place] = 0;
    }
    point
}

impl<const D: usize> Task<'_, D> {
    /// The lower bound of the `for` inside so many others that are around an instance: that of the position for the
    /// outermost loop, and the expected one for an inner loop.
    fn lower(&self, inst: &Instance<D>, depth: usize) -> i64
        requires few { D < 7 }
        requires task { IsSomeTask D (task_of self.now) }
        requires predicted { Predicted self.now.pred.now self.now.chunk inst.now }
        requires around { depth < counters self.now.pred.now (block_of self.now.pred.now inst.now) }
        requires fits { 1 ≤ depth → FitsSigned w64 (lower_at (forecast_of self.now.pred.now) self.now.outer (depth + 1) (take depth inst.now.at)) }
        ensures { result ≡ lower_at (forecast_of self.now.pred.now) self.now.outer (depth + 1) (take depth inst.now.at) }
    {
        if depth == 0 {
            return self.outer.lower;
        }
        match &self.pred.level(depth).lower {
            Some(form) => form.at(&cut(&inst.at, depth)) as i64,
            None => 0,
        }
    }

    /// The value of the name of the loop inside so many others, in its turn at an instance; of a `while` the turn number.
    fn value(&self, inst: &Instance<D>, depth: usize) -> i64
        requires few { D < 7 }
        requires task { IsSomeTask D (task_of self.now) }
        requires predicted { Predicted self.now.pred.now self.now.chunk inst.now }
        requires around { depth < counters self.now.pred.now (block_of self.now.pred.now inst.now) }
        ensures { result ≡ name_value self.now.pred.now self.now.nest.now.loops self.now.outer inst.now.at depth }
    {
        let turn = inst.at[depth];
        let Some(head) = self.nest.head(depth as u8 + 1) else {
            unreachable!()
        };
        match head {
            Head::For(_, _, stride) => value_of_turn(self.lower(inst, depth), *stride, turn as u64),
            Head::While(_) => turn,
        }
    }

    /// The values of the names of the loops around an instance, of so many, and then zeros.
    pub(crate) fn values(&self, inst: &Instance<D>, loops: usize) -> [i64; D]
        requires few { D < 7 }
        requires task { IsSomeTask D (task_of self.now) }
        requires predicted { Predicted self.now.pred.now self.now.chunk inst.now }
        requires around { loops ≡ counters self.now.pred.now (block_of self.now.pred.now inst.now) }
        ensures { take loops result ≡ (around_of self.now.pred.now self.now.nest.now.loops self.now.outer (take loops inst.now.at)).values }
    {
        let mut values = [0; D];
        for depth in 0..loops {
            values[depth] = self.value(inst, depth);
        }
        values
    }

    /// Where an instance of that block runs, inside of so many loops: at its own turn numbers, with these values of the
    /// loops' names.
    pub(crate) fn site<'i>(
        &self,
        block: BlockRef,
        inst: &'i Instance<D>,
        values: &'i [i64; D],
        loops: usize,
    ) -> Site<'i>
        requires few { D < 7 }
        requires task { IsSomeTask D (task_of self.now) }
        requires predicted { Predicted self.now.pred.now self.now.chunk inst.now }
        requires around { loops ≡ counters self.now.pred.now (block_of self.now.pred.now inst.now) }
        requires values { take loops values.now ≡ (around_of self.now.pred.now self.now.nest.now.loops self.now.outer (take loops inst.now.at)).values }
        ensures { (x : Expectation) → frame_at result x ≡ frame_of x block.part block.level (around_of self.now.pred.now self.now.nest.now.loops self.now.outer (take loops inst.now.at)) }
    {
        Site {
            block,
            counters: &inst.at[..loops],
            values: &values[..loops],
        }
    }
}
