//! The schedule of a script.

ghost use Rattle.std.specs.Prelude.{◌≡◌, ◌<◌};
ghost use Rattle.transform.specs.Scripts as scripts;

use crate::Schedule;
use crate::draft::Draft;
use nest_lang::Command;

/// The schedule of a script for a nest of D loops, D at most 6, by the table of docs/SCHEDULES.md. None comes exactly
/// where a rule of the table is broken.
pub fn schedule_of<const D: usize>(script: &[Command]) -> Option<Schedule<D>>
    requires { D < 7 }
    ensures { result ≡ scripts.schedule_of D script.now }
{
    let mut draft = Draft::new();
    for command in script {
        draft.apply(command)?;
    }
    Some(draft.finish())
}
