//! The candidates of a file's first nest.

ghost use Rattle.std.specs.Prelude.{◌<◌};

use nest_text::NestFile;
use std::alloc::{AllocError, Global};
use transform::{Schedule, schedule_of, standard};

/// The schedules of the candidates, or of the standard ones where there are none.
pub fn schedules<const D: usize>(
    alloc: Global,
    file: &NestFile,
) -> Result<Vec<Schedule<D>>, AllocError>
    requires some { 0 < D }
    requires few { D < 7 }
{
    let scripts = file.scripts(0).unwrap_or(0);
    if scripts == 0 {
        return standards(alloc);
    }
    let mut found = Vec::new(alloc);
    for number in 0..scripts {
        if let Some(script) = file.script(0, number)
            && let Some(schedule) = schedule_of(script)
        {
            found.push(schedule)?;
        }
    }
    Ok(found)
}

/// The standard candidates.
fn standards<const D: usize>(alloc: Global) -> Result<Vec<Schedule<D>>, AllocError>
    requires some { 0 < D }
    requires few { D < 7 }
{
    let mut found = Vec::new(alloc);
    for number in 1..6u8 {
        if let Some(schedule) = standard(number) {
            found.push(schedule)?;
        }
    }
    Ok(found)
}
