//! Mode `check`: the canonical text of a file.

ghost use Rattle.std.specs.Prelude.{◌≡◌, IfOk};
ghost use Rattle.canonical.specs.Contents.{canonical};

use crate::answer::Answer;
use crate::status::Status;
use canonical::write_nest;
use nest_text::NestFile;
use std::alloc::{AllocError, Global};

/// The canonical text of a file.
pub(crate) fn check(alloc: Global, file: &NestFile) -> Result<Answer, AllocError>
    ensures { IfOk result (λ answer. (answer.bytes.items ≡ canonical file.now) × (answer.status ≡ Status.Ended)) }
{
    Ok(Answer {
        bytes: write_nest(alloc, file)?,
        status: Status::Ended,
    })
}
