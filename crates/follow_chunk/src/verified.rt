//! One instance over a port that verifies its accesses by itself.

ghost use Rattle.std.specs.Prelude.{◌≡◌, ◌^◌, pos, length, IsOk};
ghost use Rattle.follow.specs.Told.{told};
ghost use Rattle.follow_chunk.specs.declared.task.Followed.TheVariants as followed;
ghost use Rattle.follow_chunk.specs.Predicted.{scalars_at};
ghost use Rattle.follow_chunk.specs.Tasks.{task_of, IsTask};
ghost use Rattle.follow_chunk.specs.Foreseen.{CanFollow};
ghost use Rattle.follow_chunk.specs.Verifies.{IsShort};
ghost use Rattle.follow_chunk.specs.Followed.{IsRun, IsInstanceFollowed, ChangesWrites, ClosesSmall, IsClosedSmall};

use crate::expect::{Foreseen, begin};
use crate::task::{Deviation, Followed, Task};
use block_exec::Port;
use domain::Instance;
use follow::{Differs, How, follow_block_verified, follow_head_verified};

/// More steps than an instance has: its block has fewer than 2^20 statements.
const MOST_STEPS: u64 = 1 << 32;

impl<const D: usize> Task<'_, D> {
    /// Runs the instance of which this is expected from its expected scalars, over a port that verifies its accesses, and
    /// compares it with what is expected of it; where it differs, `how` says how.
    #[inline(always)]
    pub(crate) fn follow_own<P: Port>(
        &self,
        foreseen: &Foreseen<'_, D>,
        port: &mut P,
        how: &mut How,
    ) -> Result<u64, Differs>
        requires { CanFollow (task_of self.now) foreseen.now (P.expects port.old) }
        ensures run { IsRun (task_of self.now) foreseen.now.inst.now (P.memory port.old) (told result how.new) (P.memory port.new) }
        ensures changes { ChangesWrites self.now.pred.now foreseen.now.inst.now (P.memory port.old) (P.memory port.new) }
        ensures closes { IsOk result → ClosesSmall self.now.pred.now foreseen.now.inst.now }
        ensures expects { P.expects port.new ≡ P.expects port.old }
        ensures basis { P.basis port.new ≡ P.basis port.old }
    {
        if self.scalars == 0 {
            return self.follow_from(foreseen, &mut [], port, how);
        }
        self.follow_with_scalars(foreseen, port, how)
    }

    /// The same where there may be scalars. Out of line, so that an instance of a nest without any makes no room for them.
    #[inline(never)]
    fn follow_with_scalars<P: Port>(
        &self,
        foreseen: &Foreseen<'_, D>,
        port: &mut P,
        how: &mut How,
    ) -> Result<u64, Differs>
        requires { CanFollow (task_of self.now) foreseen.now (P.expects port.old) }
        ensures run { IsRun (task_of self.now) foreseen.now.inst.now (P.memory port.old) (told result how.new) (P.memory port.new) }
        ensures changes { ChangesWrites self.now.pred.now foreseen.now.inst.now (P.memory port.old) (P.memory port.new) }
        ensures closes { IsOk result → ClosesSmall self.now.pred.now foreseen.now.inst.now }
        ensures expects { P.expects port.new ≡ P.expects port.old }
        ensures basis { P.basis port.new ≡ P.basis port.old }
    {
        let mut room = [0; 16];
        let scalars = &mut room[..self.scalars as usize];
        begin(self.pred, foreseen.inst, scalars);
        self.follow_from(foreseen, scalars, port, how)
    }

    /// The same from these scalars, which are the expected ones.
    #[inline(always)]
    fn follow_from<P: Port>(
        &self,
        foreseen: &Foreseen<'_, D>,
        scalars: &mut [i64],
        port: &mut P,
        how: &mut How,
    ) -> Result<u64, Differs>
        requires can { CanFollow (task_of self.now) foreseen.now (P.expects port.old) }
        requires begins { scalars.old ≡ scalars_at self.now.pred.now foreseen.now.inst.now }
        ensures run { IsRun (task_of self.now) foreseen.now.inst.now (P.memory port.old) (told result how.new) (P.memory port.new) }
        ensures changes { ChangesWrites self.now.pred.now foreseen.now.inst.now (P.memory port.old) (P.memory port.new) }
        ensures closes { IsOk result → ClosesSmall self.now.pred.now foreseen.now.inst.now }
        ensures expects { P.expects port.new ≡ P.expects port.old }
        ensures basis { P.basis port.new ≡ P.basis port.old }
    {
        let inst = foreseen.inst;
        let block = self.block(inst);
        let Some(loops) = self.nest.counters(block) else {
            unreachable!()
        };
        let values = self.values(inst, loops as usize);
        let site = self.site(block, inst, &values, loops as usize);
        if let Some(statements) = self.nest.statements(block) {
            return follow_block_verified(
                &site, statements, foreseen, scalars, port, MOST_STEPS, how,
            );
        }
        let Some(head) = self.nest.head(block.level) else {
            unreachable!()
        };
        let turning = self.turning(inst, block, head);
        follow_head_verified(
            &site, head, foreseen, turning, scalars, port, MOST_STEPS, how,
        )
    }
}

/// Runs one instance, as `follow_instance` does, over a port that verifies its accesses by itself. `Task::foreseen` gives
/// what is expected of the instance, which is predicted in the task's chunk.
pub fn follow_verified<P: Port, const D: usize>(
    task: &Task<'_, D>,
    foreseen: &Foreseen<'_, D>,
    port: &mut P,
) -> Followed<D>
    requires can { CanFollow (task_of task.now) foreseen.now (P.expects port.old) }
    requires task { IsTask D (task_of task.now) (pos (length (P.memory port.old))) }
    ensures followed { IsInstanceFollowed (task_of task.now) foreseen.now.inst.now (P.memory port.old) result (P.memory port.new) }
    ensures changes { ChangesWrites task.now.pred.now foreseen.now.inst.now (P.memory port.old) (P.memory port.new) }
    ensures closes { IsClosedSmall task.now.pred.now foreseen.now.inst.now result }
    ensures short { IsShort result }
    ensures expects { P.expects port.new ≡ P.expects port.old }
    ensures basis { P.basis port.new ≡ P.basis port.old }
{
    let mut how = How::Limit;
    match task.follow_own(foreseen, port, &mut how) {
        Ok(steps) => Followed::Same { steps },
        Err(_) => differs(foreseen.inst, &how),
    }
}

/// An instance differs so. Out of line, so that one which follows makes no room for it.
#[cold]
#[inline(never)]
fn differs<const D: usize>(inst: &Instance<D>, how: &How) -> Followed<D>
    ensures { result ≡ followed.Differs (record { at = inst.now; how = how.now }) }
{
    Followed::Differs(Deviation {
        at: *inst,
        how: *how,
    })
}
