//! The tube of a line: how far its samples lie from it.

ghost use Rattle.std.specs.Prelude.{◌≡◌, ◌<◌, ◌≤◌, ◌^◌, ◌-ℤ◌, ◌≤ℤ◌, ◌<ℤ◌, ℕ, pos, length, unsigned_abs, MatchOption};
ghost use Rattle.line_fit.specs.Samples.{sample_at};
ghost use Rattle.line_fit.specs.Lines.{IsWithin, IsTube, IsFirstMiss, Meets, residual};

use crate::sample::{Miss, Sample};
use affine::Form;

/// The least and the greatest of the residuals.
#[derive(Clone, Copy, Debug)]
pub struct Spread {
    pub low: i128,
    pub high: i128,
}

impl Spread {
    /// Its ends, where it is at most so wide. It holds 0.
    pub fn within(&self, widest: u8) -> Option<(i64, i64)>
        requires least { self.now.low ≤ℤ pos 0 }
        requires greatest { pos 0 ≤ℤ self.now.high }
        requires low { unsigned_abs self.now.low < 2 ^ 107 }
        requires high { unsigned_abs self.now.high < 2 ^ 107 }
        ensures { MatchOption result (pos widest <ℤ (self.now.high -ℤ self.now.low)) (λ ends. IsWithin self.now.low self.now.high widest ends.0 ends.1) }
    {
        if self.high - self.low <= i128::from(widest) {
            Some((self.low as i64, self.high as i64))
        } else {
            None
        }
    }
}

/// The tube of a line. There is at least one sample.
pub fn tube_of<const D: usize>(samples: &[Sample<D>], line: &Form<D>) -> Spread
    requires depth { D < 7 }
    requires some { 0 < length samples.now }
    ensures tube { IsTube line.now samples.now result.low result.high }
    ensures low { unsigned_abs result.low < 2 ^ 107 }
    ensures high { unsigned_abs result.high < 2 ^ 107 }
{
    let first = residual_at(samples, 0, line);
    let mut low = first;
    let mut high = first;
    for place in 1..samples.len() {
        let residual = residual_at(samples, place, line);
        low = low.min(residual);
        high = high.max(residual);
    }
    Spread { low, high }
}

/// The residual of the sample at a place.
fn residual_at<const D: usize>(samples: &[Sample<D>], place: usize, line: &Form<D>) -> i128
    requires depth { D < 7 }
    requires place { place < length samples.now }
    ensures value { result ≡ residual line.now (sample_at samples.now place) }
    ensures size { unsigned_abs result < 2 ^ 107 }
{
    let sample = &samples[place];
    line.residual(&sample.at, sample.value)
}

/// The first sample that a line misses.
pub fn first_miss<const D: usize>(samples: &[Sample<D>], line: &Form<D>) -> Option<Miss<D>>
    requires depth { D < 7 }
    ensures { MatchOption result ((place : ℕ) → place < length samples.now → Meets line.now samples.now place) (IsFirstMiss line.now samples.now) }
{
    for place in 0..samples.len() {
        let sample = &samples[place];
        let expected = line.at(&sample.at);
        if sample.value != expected {
            return Some(Miss {
                at: sample.at,
                line: expected,
                seen: sample.value,
            });
        }
    }
    None
}
