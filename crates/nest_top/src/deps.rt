//! Mode `deps`: the dependence listing of a file.

ghost use Rattle.std.specs.Prelude.{◌≡◌, ◌≤◌, ◌^◌, IfOk};
ghost use Rattle.nest_top.specs.Answers.{IsListingOf};

use crate::answer::Answer;
use crate::options::journey_options;
use crate::status::Status;
use command_line::Options;
use listing::listing;
use nest_text::NestFile;
use report::listing_text;
use std::alloc::{AllocError, Global};

/// The dependence listing of a file with these options.
pub(crate) fn deps(alloc: Global, file: &NestFile, options: &Options) -> Result<Answer, AllocError>
    requires { options.now.steps ≤ 2 ^ 32 }
    ensures { IfOk result (λ answer. IsListingOf options.now file.now answer.bytes.items × (answer.status ≡ Status.Ended)) }
{
    let lines = listing(alloc, file, journey_options(options))?;
    Ok(Answer {
        bytes: listing_text(alloc, file, lines.as_slice())?,
        status: Status::Ended,
    })
}
