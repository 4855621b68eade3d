//! Instances of a list, one after another.

ghost use Rattle.std.specs.Prelude.{◌≡◌, ◌<◌, ◌≤◌, false, length, pos};
ghost use Rattle.std.specs.List.{AllByRecursion};
ghost use Rattle.domain.specs.Instances.{Predicted};
ghost use Rattle.follow_chunk.specs.Tasks.{task_of, IsTask};
ghost use Rattle.follow_chunk.specs.Followed.{IsListFollowed};

use crate::instance::follow_instance;
use crate::task::{Followed, Task};
use block_exec::Port;
use domain::Instance;

/// Follows the instances of a list one after another, each as `follow_instance` does, and stops at the first that
/// differs. The empty list gives `Same` with 0 steps. Each instance is predicted in the task's chunk, there are at most
/// 65,536 of them, and the port doesn't verify.
pub fn follow_list<P: Port, const D: usize>(
    task: &Task<'_, D>,
    list: &[Instance<D>],
    port: &mut P,
) -> Followed<D>
    requires few { D < 7 }
    requires task { IsTask D (task_of task.now) (pos (length (P.memory port.old))) }
    requires short { length list.now ≤ 65536 }
    requires predicted { AllByRecursion (Predicted task.now.pred.now task.now.chunk) list.now }
    requires plain { (P.expects port.old).verifies ≡ false }
    ensures followed { IsListFollowed (task_of task.now) list.now (P.memory port.old) result (P.memory port.new) }
    ensures expects { P.expects port.new ≡ P.expects port.old }
    ensures basis { P.basis port.new ≡ P.basis port.old }
{
    let mut steps = 0;
    for inst in list {
        match follow_instance(task, inst, port) {
            Followed::Same { steps: more } => steps += more,
            Followed::Differs(deviation) => return Followed::Differs(deviation),
        }
    }
    Followed::Same { steps }
}
