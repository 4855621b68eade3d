//! What is expected of an instance.

ghost use Rattle.std.specs.Prelude.{◌≡◌, ◌<◌, ◌≤◌, ℕ, pos, length, slice_index_or, Some, option_map, FitsSigned};
ghost use Rattle.std.specs.Int.{w64};
ghost use Rattle.affine.specs.Forms.{value_at};
ghost use Rattle.domain.specs.Instances.{block_of};
ghost use Rattle.follow.specs.Intervals.{interval_by};
ghost use Rattle.follow_chunk.specs.Predicted.{scalars_at, interval_about, interval_at};

use arrayvec::ArrayVec;
use domain::{AccessForm, BlockForms, Instance, Prediction, What, expected};
use follow::{Expected, Interval};

/// A scalar expected as an instance begins, by number; 0 where there is no form of it.
#[tactic(auto, using(crate::proofs::PredictingLaws::scalar_expected))]
pub fn expected_scalar<const D: usize>(pred: &Prediction<D>, inst: &Instance<D>, number: u8) -> i128
    requires { D < 7 }
    ensures { result ≡ slice_index_or (scalars_at pred.now inst.now) number (pos 0) }
{
    expected(pred, inst, What::Scalar(number)).unwrap_or(0)
}

/// The expected interval of an access, by number; None where there is no form of its line.
#[tactic(auto, unfolding(crate::specs::Predicted::interval_at))]
pub fn expected_interval<const D: usize>(
    pred: &Prediction<D>,
    inst: &Instance<D>,
    access: u8,
) -> Option<Interval>
    requires { D < 7 }
    ensures { interval_by result ≡ interval_at pred.now inst.now access }
{
    let line = expected(pred, inst, What::Address(access))?;
    let (low, high) = pred.tube(inst.block, access)?;
    Some(Interval { line, low, high })
}

/// The scalars expected as an instance begins, of which there are so many (at most 16).
pub fn scalars_at<const D: usize>(
    pred: &Prediction<D>,
    inst: &Instance<D>,
    count: u8,
) -> ArrayVec<i128, 16>
    requires few { D < 7 }
    requires short { count ≤ 16 }
    requires count { length (block_of pred.now inst.now).scalars ≡ count }
    ensures { result.items ≡ scalars_at pred.now inst.now }
{
    let mut scalars = ArrayVec::new();
    for number in 0..count {
        scalars.push(expected_scalar(pred, inst, number));
    }
    scalars
}

/// The same numbers as i64s, which they are.
pub fn narrowed(scalars: &[i128]) -> ArrayVec<i64, 16>
    requires short { length scalars.now ≤ 16 }
    requires fits { (k : ℕ) → FitsSigned w64 (slice_index_or scalars.now k (pos 0)) }
    ensures { result.items ≡ scalars.now }
{
    let mut narrow = ArrayVec::new();
    for scalar in scalars {
        narrow.push(*scalar as i64);
    }
    narrow
}

/// Sets each scalar to the one expected as an instance begins, which is an i64.
pub(crate) fn begin<const D: usize>(pred: &Prediction<D>, inst: &Instance<D>, scalars: &mut [i64])
    requires few { D < 7 }
    requires short { length scalars.old ≤ 16 }
    requires count { length (block_of pred.now inst.now).scalars ≡ length scalars.old }
    requires fits { (k : ℕ) → FitsSigned w64 (slice_index_or (scalars_at pred.now inst.now) k (pos 0)) }
    ensures { scalars.new ≡ scalars_at pred.now inst.now }
{
    for number in 0..scalars.len() {
        scalars[number] = expected_scalar(pred, inst, number as u8) as i64;
    }
}

/// The interval of an access at turn numbers; None where there is no form of its line.
fn interval_of<const D: usize>(access: &AccessForm<D>, at: &[i64; D]) -> Option<Interval>
    requires { D < 7 }
    ensures { interval_by result ≡ interval_about (option_map (λ form. value_at form at.now) access.now.line) (Some (access.now.low, access.now.high)) }
{
    match &access.line {
        Some(form) => Some(Interval {
            line: form.at(at),
            low: access.low,
            high: access.high,
        }),
        None => None,
    }
}

/// What a prediction expects of one instance, after which the scalars are those that `next` begins with. The forms of the
/// instance's block are found once; each is evaluated where its value is asked for.
#[derive(Drop)]
pub struct Foreseen<'a, const D: usize> {
    pub pred: &'a Prediction<D>,
    pub inst: &'a Instance<D>,
    pub next: Instance<D>,
    pub forms: &'a BlockForms<D>,
    ghost few: { D < 7 },
    ghost block: { forms.now ≡ block_of pred.now inst.now },
}

impl<const D: usize> Expected for Foreseen<'_, D> {
    ghost intervals = { λ e. interval_at e.pred.now e.inst.now };

    ghost after = { λ e. scalars_at e.pred.now e.next };

    fn interval(&self, access: u8) -> Option<Interval> {
        let inst = self.inst;
        match self.forms.access(access) {
            Some(form) => interval_of(form, &inst.at),
            None => None,
        }
    }

    fn scalar_after(&self, number: u8) -> i128 {
        expected_scalar(self.pred, &self.next, number)
    }
}
