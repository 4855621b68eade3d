//! One instance, run from its expected scalars and compared with what is predicted of it.

ghost use Rattle.std.specs.Prelude.{◌≡◌, ◌<◌, ℕ, Some, false, length, pos, IsOk};
ghost use Rattle.nest_lang.specs.declared.tree.Part.TheVariants.{Head as HeadPart};
ghost use Rattle.nest_lang.specs.Blocks.{block_ref, head_at};
ghost use Rattle.domain.specs.Instances.{block_of, Predicted};
ghost use Rattle.domain.specs.Steps.{next};
ghost use Rattle.follow.specs.Turnings.{IsTurning};
ghost use Rattle.follow.specs.Told.{told};
ghost use Rattle.follow_chunk.specs.Predicted.{occurrence_of, scalars_at, forecast_of};
ghost use Rattle.follow_chunk.specs.Tasks.{task_of, IsTask, IsSomeTask};
ghost use Rattle.follow_chunk.specs.Followed.{IsRun, IsInstanceFollowed, ChangesWrites, ClosesSmall, IsClosedSmall};

use crate::expect::Foreseen;
use crate::place::cut;
use crate::task::{Deviation, Followed, Task};
use block_exec::Port;
use domain::{Instance, What, expected, successor};
use follow::{Differs, How, Turning, VerifyingPort};
use nest_lang::{BlockRef, Head};

impl<const D: usize> Task<'_, D> {
    /// The block of an instance.
    pub(crate) fn block(&self, inst: &Instance<D>) -> BlockRef
        requires task { IsSomeTask D (task_of self.now) }
        requires predicted { Predicted self.now.pred.now self.now.chunk inst.now }
        ensures { result ≡ block_ref (block_of self.now.pred.now inst.now).part (block_of self.now.pred.now inst.now).level }
    {
        let forms = self.pred.block(inst.block);
        BlockRef {
            part: forms.part,
            level: forms.level,
        }
    }

    /// An instance that is expected to begin with the scalars of the successor: that successor, and where there are no
    /// scalars any.
    fn next_or_any(&self, inst: &Instance<D>) -> Instance<D>
        requires few { D < 7 }
        requires task { IsSomeTask D (task_of self.now) }
        requires predicted { Predicted self.now.pred.now self.now.chunk inst.now }
        ensures { scalars_at self.now.pred.now result ≡ scalars_at self.now.pred.now (next self.now.pred.now inst.now) }
    {
        let count = self.scalars;
        if count == 0 {
            return *inst;
        }
        self.successor(inst)
    }

    /// The successor of an instance. Out of line, so that where none is looked for there is no room made for it.
    #[inline(never)]
    fn successor(&self, inst: &Instance<D>) -> Instance<D>
        requires few { D < 7 }
        requires task { IsSomeTask D (task_of self.now) }
        requires predicted { Predicted self.now.pred.now self.now.chunk inst.now }
        ensures { result ≡ next self.now.pred.now inst.now }
    {
        successor(self.pred, inst)
    }

    /// What is expected of an instance, which is predicted in the task's chunk.
    pub fn foreseen<'i>(&'i self, inst: &'i Instance<D>) -> Foreseen<'i, D>
        requires few { D < 7 }
        requires task { IsSomeTask D (task_of self.now) }
        requires predicted { Predicted self.now.pred.now self.now.chunk inst.now }
        ensures pred { result.pred.now ≡ self.now.pred.now }
        ensures inst { result.inst.now ≡ inst.now }
        ensures next { scalars_at self.now.pred.now result.next ≡ scalars_at self.now.pred.now (next self.now.pred.now inst.now) }
    {
        Foreseen {
            pred: self.pred,
            inst,
            next: self.next_or_any(inst),
            forms: self.pred.block(inst.block),
        }
    }

    /// What is expected of the head of that block, of which this is an instance.
    pub(crate) fn turning(&self, inst: &Instance<D>, block: BlockRef, head: &Head) -> Turning
        requires few { D < 7 }
        requires task { IsSomeTask D (task_of self.now) }
        requires predicted { Predicted self.now.pred.now self.now.chunk inst.now }
        requires block { block ≡ block_ref (block_of self.now.pred.now inst.now).part (block_of self.now.pred.now inst.now).level }
        requires part { block.part ≡ HeadPart }
        requires head { head_at self.now.nest.now.loops block.level ≡ Some head.now }
        ensures { IsTurning (forecast_of self.now.pred.now) (occurrence_of self.now.pred.now inst.now) head.now result }
    {
        let depth = block.level as usize - 1;
        let around = Instance {
            block: inst.block,
            at: cut(&inst.at, depth),
        };
        let trip = expected(self.pred, &around, What::Trip).unwrap_or(0);
        match head {
            Head::For(_, _, _) => {
                Turning::Bounds(expected(self.pred, inst, What::Lower).unwrap_or(0), trip)
            }
            Head::While(_) => {
                Turning::Holds(block.level <= 1 || i128::from(inst.at[depth]) < trip)
            }
        }
    }

    /// Runs an instance from its expected scalars, and compares it with what is predicted of it; where it differs, `how`
    /// says how.
    #[inline(always)]
    fn follow<P: Port>(
        &self,
        inst: &Instance<D>,
        port: &mut P,
        how: &mut How,
    ) -> Result<u64, Differs>
        requires few { D < 7 }
        requires task { IsSomeTask D (task_of self.now) }
        requires predicted { Predicted self.now.pred.now self.now.chunk inst.now }
        requires plain { (P.expects port.old).verifies ≡ false }
        ensures run { IsRun (task_of self.now) inst.now (P.memory port.old) (told result how.new) (P.memory port.new) }
        ensures changes { ChangesWrites self.now.pred.now inst.now (P.memory port.old) (P.memory port.new) }
        ensures closes { IsOk result → ClosesSmall self.now.pred.now inst.now }
        ensures expects { P.expects port.new ≡ P.expects port.old }
        ensures basis { P.basis port.new ≡ P.basis port.old }
    {
        let foreseen = self.foreseen(inst);
        let mut verified = VerifyingPort::new(port, &foreseen);
        self.follow_own(&foreseen, &mut verified, how)
    }
}

/// Runs one instance from its expected scalars, and compares it with what is predicted of it: each address before the
/// port is asked, what a head yields, and after the last step each scalar with that expected of the instance's
/// successor, which is then an i64. Whether it differs or not, it changes no word that is none of its writes. The instance
/// is predicted in the task's chunk, and the port doesn't verify. In line with what it calls, down to the run of a block, so
/// that the answer of an instance which follows is put nowhere.
#[inline(always)]
pub fn follow_instance<P: Port, const D: usize>(
    task: &Task<'_, D>,
    inst: &Instance<D>,
    port: &mut P,
) -> Followed<D>
    requires few { D < 7 }
    requires task { IsTask D (task_of task.now) (pos (length (P.memory port.old))) }
    requires predicted { Predicted task.now.pred.now task.now.chunk inst.now }
    requires plain { (P.expects port.old).verifies ≡ false }
    ensures followed { IsInstanceFollowed (task_of task.now) inst.now (P.memory port.old) result (P.memory port.new) }
    ensures changes { ChangesWrites task.now.pred.now inst.now (P.memory port.old) (P.memory port.new) }
    ensures closes { IsClosedSmall task.now.pred.now inst.now result }
    ensures expects { P.expects port.new ≡ P.expects port.old }
    ensures basis { P.basis port.new ≡ P.basis port.old }
{
    let mut how = How::Limit;
    match task.follow(inst, port, &mut how) {
        Ok(steps) => Followed::Same { steps },
        Err(_) => Followed::Differs(Deviation { at: *inst, how }),
    }
}
