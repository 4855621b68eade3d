//! The options of an invocation, as those of a journey.

ghost use Rattle.std.specs.Prelude.{◌≡◌};
ghost use Rattle.nest_top.specs.Answers as answers;

use command_line::Options;

/// The options of a journey.
pub(crate) fn journey_options(options: &Options) -> report::Options
    ensures { result ≡ answers.journey_options options.now }
{
    report::Options {
        workers: options.workers,
        chunk: options.chunk,
        sample: options.sample,
        steps: options.steps,
    }
}
