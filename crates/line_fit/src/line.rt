//! The line through samples.

ghost use Rattle.std.specs.Prelude.{◌≡◌, ◌<◌, ◌≤◌, ◌^◌, ◌-ℤ◌, List, length, unsigned_abs, FitsSigned, MatchResult};
ghost use Rattle.std.specs.Int.{w64};
ghost use Rattle.affine.specs.Forms.{AllWithinSize, value_at};
ghost use Rattle.line_fit.specs.Samples.{sample_at, IsCoefficient};
ghost use Rattle.line_fit.specs.Firsts.{IsIndex};
ghost use Rattle.line_fit.specs.Lines.{largest, AreCoefficients, IsLargeCoefficient};

use crate::rise::coefficient;
use crate::sample::Sample;
use std::collections::BTreeMap;

/// The coefficients of the line, or the first of them that is above 2^40 in size.
pub fn coefficients<const D: usize>(
    samples: &[Sample<D>],
    firsts: &BTreeMap<[i64; D], usize>,
) -> Result<[i64; D], i128>
    requires depth { D < 7 }
    requires index { IsIndex samples.now (length samples.now) firsts.now }
    ensures { MatchResult result (λ found. AreCoefficients D samples.now found × AllWithinSize largest found) (λ large. IsLargeCoefficient D samples.now large) }
{
    let mut found = [0; D];
    for counter in 0..D {
        found[counter] = small_coefficient(samples, firsts, counter)?;
    }
    Ok(found)
}

/// The coefficient of a counter, where it is at most 2^40 in size.
fn small_coefficient<const D: usize>(
    samples: &[Sample<D>],
    firsts: &BTreeMap<[i64; D], usize>,
    counter: usize,
) -> Result<i64, i128>
    requires depth { D < 7 }
    requires counter { counter < D }
    requires index { IsIndex samples.now (length samples.now) firsts.now }
    ensures is { MatchResult result (λ found. IsCoefficient counter samples.now found) (λ large. IsCoefficient counter samples.now large) }
    ensures size { MatchResult result (λ found. unsigned_abs found ≤ largest) (λ large. largest < unsigned_abs large) }
{
    let rise = coefficient(samples, firsts, counter);
    if rise.unsigned_abs() <= 1 << 40 {
        Ok(rise as i64)
    } else {
        Err(rise)
    }
}
