//! Mode `plain`: the outcome of the plain run of a file.

ghost use Rattle.std.specs.Prelude.{◌≡◌, ◌+◌, ◌<◌, ◌≤◌, ◌^◌, ℕ, IfOk, OnOk, length};
ghost use Rattle.nest_lang.specs.Runs.{nests_trace, finish_of_ending};
ghost use Rattle.nest_lang.specs.Traces.{cut, cut_of};
ghost use Rattle.nest_grammar.specs.Files.{nests_of};
ghost use Rattle.nest_top.specs.Answers as answers;
ghost use Rattle.nest_top.specs.Answers.{IsOutcomeOf};

use crate::answer::Answer;
use crate::status::Status;
use block_exec::NestCode;
use nest_lang::{Budget, Ending, State};
use nest_text::NestFile;
use plain_interp::run_nest_by;
use report::outcome_text;
use std::alloc::{AllocError, Global};

/// The outcome of the plain run of a file within so many steps, at most 2^32.
pub(crate) fn plain(alloc: Global, file: &NestFile, steps: u64) -> Result<Answer, AllocError>
    requires { steps ≤ 2 ^ 32 }
    ensures { IfOk result (λ answer. IsOutcomeOf file.now steps answer.bytes.items answer.status) }
{
    let mut state = file.start(alloc)?;
    let mut budget = Budget {
        left: steps,
        used: 0,
    };
    let ending = run_nests(alloc, file, &mut state, &mut budget)?;
    let bytes = outcome_text(alloc, file, &state, &ending, budget.used)?;
    Ok(Answer {
        bytes,
        status: status_of(ending),
    })
}

/// Runs the nests of a file, one after another, each by its code, with the steps of a budget.
fn run_nests(
    alloc: Global,
    file: &NestFile,
    state: &mut State,
    steps: &mut Budget,
) -> Result<Ending, AllocError>
    requires steps { steps.old.left + steps.old.used ≤ 2 ^ 32 }
    requires scalars { length state.old.scalars ≤ 256 }
    ensures ran { IfOk result (λ ending. (k : ℕ) → steps.old.left < k → cut_of state.new steps.new.left steps.new.used (finish_of_ending ending)
        ≡ cut (nests_trace k (nests_of file.now) state.old) state.old steps.old.left steps.old.used) }
    ensures scalars { OnOk result (length state.new.scalars ≡ length state.old.scalars) }
{
    'nests: for number in 0..file.nests() {
        let Some(nest) = file.nest(number) else {
            unreachable!()
        };
        let code = NestCode::new(alloc, nest)?;
        match run_nest_by(nest, &code, state, steps) {
            Ending::Ended => {}
            ending => return Ok(ending),
        }
    }
    Ok(Ending::Ended)
}

/// The status of a run that ended so.
pub(crate) fn status_of(ending: Ending) -> Status
    ensures { result ≡ answers.status_of ending }
{
    match ending {
        Ending::Ended => Status::Ended,
        Ending::Trapped(_) => Status::Trapped,
        Ending::Limited => Status::Limited,
    }
}
