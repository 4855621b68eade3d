//! Values, over exact whole numbers (docs/DEFINITIONS.md, Values).

ghost use Rattle.std.specs.Prelude.{◌≡◌, ◌≢◌, ◌↔◌, ℕ, ◌<◌, pos, ◌-ℤ◌, FitsSigned};
ghost use Rattle.std.specs.Int.{w64};
ghost use Rattle.nest_lang.specs.Values.{apply_of, is_i64, negate_of, trip_count, steps_over, turn_value, IsTurn};

use crate::tree::{Op, Trap};

/// Whether a number is an i64.
pub fn is_i64(value: i128) -> bool
    ensures { result ≡ is_i64 value }
{
    i128::from(i64::MIN) <= value && value <= i128::from(i64::MAX)
}

/// The value of an operator at two operands. `Overflow` where the exact value is no i64 (for a
/// remainder: where the quotient is none), `ZeroDivisor` for a division or remainder by 0.
/// Comparisons give 1 or 0.
#[tactic(auto, unfolding(crate::specs::Values::apply_of))]
pub fn apply(op: Op, left: i64, right: i64) -> Result<i64, Trap>
    ensures { result ≡ apply_of op left right }
{
    match op {
        Op::Add => left.checked_add(right).ok_or(Trap::Overflow),
        Op::Sub => left.checked_sub(right).ok_or(Trap::Overflow),
        Op::Mul => left.checked_mul(right).ok_or(Trap::Overflow),
        Op::Div => {
            if right == 0 {
                return Err(Trap::ZeroDivisor);
            }
            left.checked_div(right).ok_or(Trap::Overflow)
        }
        Op::Rem => {
            if right == 0 {
                return Err(Trap::ZeroDivisor);
            }
            left.checked_rem(right).ok_or(Trap::Overflow)
        }
        Op::Eq => Ok(i64::from(left == right)),
        Op::Ne => Ok(i64::from(left != right)),
        Op::Lt => Ok(i64::from(left < right)),
        Op::Le => Ok(i64::from(left <= right)),
        Op::Gt => Ok(i64::from(right < left)),
        Op::Ge => Ok(i64::from(right <= left)),
    }
}

/// The negated value. `Overflow` for the least i64 alone.
#[tactic(auto, unfolding(crate::specs::Values::negate_of))]
pub fn negate(value: i64) -> Result<i64, Trap>
    ensures { result ≡ negate_of value }
{
    value.checked_neg().ok_or(Trap::Overflow)
}

/// The number of turns of a `for`, which is at most 2^64 - 1.
pub fn trip_of(lower: i64, upper: i64, stride: i64) -> u64
    requires { stride ≢ pos 0 }
    ensures exact { result ≡ trip_count lower upper stride }
    ensures turns { (t : ℕ) → (t < result) ↔ IsTurn lower upper stride t }
{
    if stride > 0 {
        turns_between(lower, upper, stride.unsigned_abs())
    } else {
        turns_between(upper, lower, stride.unsigned_abs())
    }
}

/// How many steps of a size lead from one number to another that is greater; 0 where it isn't.
fn turns_between(from: i64, to: i64, size: u64) -> u64
    requires { 0 < size }
    ensures { result ≡ steps_over (to -ℤ from) size }
{
    if from < to {
        to.abs_diff(from).div_ceil(size)
    } else {
        0
    }
}

/// The value of a `for`'s name in a turn, where it is an i64, as it is in each of its turns: so many strides
/// behind the lower bound.
pub fn value_of_turn(lower: i64, stride: i64, turn: u64) -> i64
    requires { FitsSigned w64 (turn_value lower stride turn) }
    ensures { result ≡ turn_value lower stride turn }
{
    (i128::from(lower) + i128::from(stride) * i128::from(turn)) as i64
}
