//! What a profile's observations lead to.

ghost use Rattle.std.specs.Prelude.{◌≡◌, ◌<◌, ◌≤◌, ◌^◌, ◌++◌, ℕ, length, IfOk, OnOk};
ghost use Rattle.std.specs.List.{All};
ghost use Rattle.domain.specs.Shapes.{IsTableOf};
ghost use Rattle.profile.specs.Fits.{IsFitOf};
ghost use Rattle.journeys.specs.Settings.{Moment, observed};
ghost use Rattle.journeys.specs.Tellings.{illegal_lines};
ghost use Rattle.controller.specs.Courses.{IsJudged, NamesPresent};

use crate::course::Course;
use crate::stage::{Chosen, Stage};
use crate::telling::{illegal_line, unfit_line};
use domain::Prediction;
use legality::{Refusal, choose};
use nest_lang::Nest;
use profile::{FitEnd, Samples, fit};
use report::Line;
use std::alloc::{AllocError, Global};

/// Judges what some turns showed: tells the first datum that has no form, and turns in original order follow; or judges the
/// candidates by the fit.
pub fn judge<const D: usize>(
    alloc: Global,
    lines: &mut Vec<Line>,
    course: &Course<'_, D>,
    samples: &Samples,
) -> Result<Stage<D>, AllocError>
    ensures { IfOk result (λ stage. (m : Moment) (turns : ℕ) → samples.now ≡ observed course.now m turns → IsJudged course.now samples.now lines.old.items stage lines.new.items) }
{
    match fit(alloc, course.nest, course.scalars, samples) {
        Ok(pred) => judge_candidates(alloc, lines, course, pred),
        Err(FitEnd::Unfit(unfit)) => {
            lines.push(unfit_line(course.nest, &unfit))?;
            Ok(Stage::Plainly(course.chunk))
        }
        Err(FitEnd::NoMemory) => Err(AllocError),
    }
}

/// Tells each candidate that is refused. Chunks follow by the first legal one; turns in original order where there is none.
fn judge_candidates<const D: usize>(
    alloc: Global,
    lines: &mut Vec<Line>,
    course: &Course<'_, D>,
    pred: Prediction<D>,
) -> Result<Stage<D>, AllocError>
    requires { IsTableOf course.now.scalars course.now.loops pred }
    ensures { IfOk result (λ stage. (m : Moment) (turns : ℕ) → IsFitOf (length course.now.loops) course.now.scalars course.now.loops (observed course.now m turns) pred.entry
        → IsJudged course.now (observed course.now m turns) lines.old.items stage lines.new.items) }
{
    let choice = choose(
        alloc,
        &pred,
        course.candidates.as_slice(),
        course.chunk as i64,
    )?;
    tell_refused(lines, course.nest, choice.refusals.as_slice())?;
    match choice.legal {
        Some(number) => Ok(Stage::Chunks(Chosen { pred, number })),
        None => Ok(Stage::Plainly(course.chunk)),
    }
}

/// Tells the candidates that were refused, which are the first ones, in order.
fn tell_refused(lines: &mut Vec<Line>, nest: &Nest, refusals: &[Refusal]) -> Result<(), AllocError>
    requires loops { length nest.now.loops ≤ 6 }
    requires few { length refusals.now < 2 ^ 32 }
    requires present { All (NamesPresent nest.now.loops) refusals.now }
    ensures { OnOk result (lines.new.items ≡ lines.old.items ++ illegal_lines nest.now.loops 1 refusals.now) }
{
    for (place, refusal) in refusals.iter().enumerate() {
        lines.push(illegal_line(nest, place as u32 + 1, *refusal))?;
    }
    Ok(())
}
