//! How far the values of a loop's name may reach.

ghost use Rattle.std.specs.Prelude.{◌≡◌, ◌<◌, ◌≤◌, ◌*◌, ◌^◌, Some, IsTrue, unsigned_abs};
ghost use Rattle.std.specs.List.{All};
ghost use Rattle.domain.specs.Tables.{Reaches, stride_size};

use affine::Form;
use domain::{LoopForms, LoopKind};

/// Whether the values of a loop's name stay far below 2^127, as a prediction asks. They do in every run: there the bounds
/// of a `for` are i64s.
pub fn is_within_reach<const D: usize>(level: &LoopForms<D>) -> bool
    requires { D < 7 }
    ensures { IsTrue result → Reaches (stride_size level.now.kind) level.now.trip }
{
    match &level.trip {
        Some(trip) => reaches(stride_size(level.kind), trip),
        None => true,
    }
}

/// Whether a trip of a loop with a stride of this size stays so.
fn reaches<const D: usize>(stride: u64, trip: &Form<D>) -> bool
    requires { D < 7 }
    ensures { IsTrue result → Reaches stride (Some trip.now) }
{
    let numbers = &trip.coef[..];
    are_within(stride, numbers) && product(stride, trip.cst) <= 1 << 104
}

/// Whether each of these numbers, times the size of the stride, is at most 2^66 in size.
fn are_within(stride: u64, numbers: &[i64]) -> bool
    ensures { IsTrue result → All (λ number. stride * unsigned_abs number ≤ 2 ^ 66) numbers.now }
{
    numbers
        .iter()
        .all(|number| product(stride, *number) <= 1 << 66)
}

/// The size of a number, times that of the stride.
fn product(stride: u64, number: i64) -> u128
    ensures { result ≡ stride * unsigned_abs number }
{
    u128::from(stride) * u128::from(number.unsigned_abs())
}

/// The size of a loop's stride, at least 1.
fn stride_size(kind: LoopKind) -> u64
    ensures { result ≡ stride_size kind }
{
    match kind {
        LoopKind::For(stride) => stride.unsigned_abs().max(1),
        LoopKind::While => 1,
    }
}
