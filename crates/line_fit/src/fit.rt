//! The fit of a datum.

ghost use Rattle.std.specs.Prelude.{◌≡◌, ◌<◌, ◌≤◌, ◌^◌, ◌-ℤ◌, pos, [], length, unsigned_abs, FitsSigned, MatchResult, MatchOption};
ghost use Rattle.std.specs.Int.{w64};
ghost use Rattle.line_fit.specs.Answers.{IsUnfit, IsUnlined};
ghost use Rattle.line_fit.specs.Lines.{IsLine, IsSmall, IsFit};

use crate::index::firsts;
use crate::line::coefficients;
use crate::sample::{NoFit, Sample, Tube};
use crate::tube::{first_miss, tube_of};
use affine::Form;
use std::alloc::Global;

/// The fit of a datum, from its samples in the order in which they were observed: their line, and its tube, which
/// is at most so wide. None exactly where there are no samples. Where there is no fit the answer says why. D is at
/// most 6.
pub fn fit_datum<const D: usize>(
    alloc: Global,
    samples: &[Sample<D>],
    widest: u8,
) -> Result<Option<Tube<D>>, NoFit<D>>
    requires { D < 7 }
    ensures { MatchResult result (λ fit. MatchOption fit (samples.now ≡ []) (λ tube. (0 < length samples.now) × IsFit D widest samples.now tube)) (λ why. IsUnfit D widest samples.now why) }
{
    if samples.is_empty() {
        return Ok(None);
    }
    let line = line_through(alloc, samples)?;
    if let Some((low, high)) = tube_of(samples, &line).within(widest) {
        return Ok(Some(Tube { line, low, high }));
    }
    match first_miss(samples, &line) {
        Some(miss) => Err(NoFit::Missed(miss)),
        None => unreachable!(),
    }
}

/// The line through samples, of which there is at least one.
fn line_through<const D: usize>(alloc: Global, samples: &[Sample<D>]) -> Result<Form<D>, NoFit<D>>
    requires depth { D < 7 }
    requires some { 0 < length samples.now }
    ensures { MatchResult result (λ line. IsLine D samples.now line × IsSmall line) (λ why. IsUnlined D samples.now why) }
{
    let firsts = firsts(alloc, samples)?;
    let coef = match coefficients(samples, &firsts) {
        Ok(coef) => coef,
        Err(large) => return Err(NoFit::Large(large)),
    };
    let first = &samples[0];
    let constant = Form { coef, cst: 0 }.residual(&first.at, first.value);
    match i64::try_from(constant) {
        Ok(cst) => Ok(Form { coef, cst }),
        Err(_) => Err(NoFit::Large(constant)),
    }
}
