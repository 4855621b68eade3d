//! The coefficient of a counter: the rise of the value over the counter's first step.

ghost use Rattle.std.specs.Prelude.{◌≡◌, ◌<◌, ◌≤◌, ◌^◌, ◌-ℤ◌, ℕ, pos, negsuc, length, slice_index_or, unsigned_abs, MatchOption, IfSome, IfNone, FitsSigned};
ghost use Rattle.std.specs.Int.{w64};
ghost use Rattle.line_fit.specs.Samples.{IsStep, IsCoefficient, one_less, sample_at};
ghost use Rattle.line_fit.specs.Firsts.{IsIndex};

use crate::sample::Sample;
use std::collections::BTreeMap;

/// The rise of the value over the first step of a counter, numbered from 0; 0 where there is none.
pub fn coefficient<const D: usize>(
    samples: &[Sample<D>],
    firsts: &BTreeMap<[i64; D], usize>,
    counter: usize,
) -> i128
    requires depth { D < 7 }
    requires counter { counter < D }
    requires index { IsIndex samples.now (length samples.now) firsts.now }
    ensures { IsCoefficient counter samples.now result }
{
    for place in 0..samples.len() {
        if let Some(earlier) = step_to(samples, place, firsts, counter) {
            return difference(&samples[place], &samples[earlier]);
        }
    }
    0
}

/// The value of a sample less that of an earlier one.
fn difference<const D: usize>(sample: &Sample<D>, earlier: &Sample<D>) -> i128
    ensures { result ≡ sample.now.value -ℤ earlier.now.value }
{
    sample.value - earlier.value
}

/// The first place before this one whose counters are one less in a counter.
#[tactic(auto, using(crate::proofs::StepLaws::steps))]
fn step_to<const D: usize>(
    samples: &[Sample<D>],
    place: usize,
    firsts: &BTreeMap<[i64; D], usize>,
    counter: usize,
) -> Option<usize>
    requires depth { D < 7 }
    requires counter { counter < D }
    requires place { place < length samples.now }
    requires index { IsIndex samples.now (length samples.now) firsts.now }
    requires numbers { (earlier : ℕ) → earlier < place → FitsSigned w64 (slice_index_or (sample_at samples.now earlier).at counter (pos 0)) }
    ensures step { MatchOption result ((earlier : ℕ) → IsStep counter samples.now earlier place → ⊥) (λ earlier. IsStep counter samples.now earlier place) }
    ensures first { IfSome result (λ earlier. (other : ℕ) → other < earlier → IsStep counter samples.now other place → ⊥) }
    ensures number { FitsSigned w64 (slice_index_or (sample_at samples.now place).at counter (pos 0)) }
{
    let sample = &samples[place];
    let less = one_less(&sample.at, counter)?;
    match firsts.get(&less) {
        Some(earlier) if *earlier < place => Some(*earlier),
        _ => None,
    }
}

/// The counters that are one less in a counter, where that is an i64.
fn one_less<const D: usize>(at: &[i64; D], counter: usize) -> Option<[i64; D]>
    requires depth { D < 7 }
    requires counter { counter < D }
    ensures some { IfSome result (λ less. less ≡ one_less counter at.now) }
    ensures none { IfNone result (slice_index_or at.now counter (pos 0) ≡ negsuc 9223372036854775807) }
    ensures number { FitsSigned w64 (slice_index_or at.now counter (pos 0)) }
    ensures size { length at.now ≡ D }
{
    let mut less = *at;
    less[counter] = at[counter].checked_sub(1)?;
    Some(less)
}
