//! Sums and products of numbers that are far from the ends of an i128.

ghost use Rattle.std.specs.Prelude.{◌≡◌, ◌≤◌, ◌^◌, pos, ◌+ℤ◌, ◌-ℤ◌, ◌*ℤ◌, FitsSigned, unsigned_abs};
ghost use Rattle.std.specs.Int.{w128};

/// A number and a smaller one.
pub fn plus(sum: i128, number: i64) -> i128
    requires { unsigned_abs sum ≤ 2 ^ 100 }
    ensures { result ≡ sum +ℤ number }
{
    sum + i128::from(number)
}

/// A number less a smaller one.
pub fn minus(sum: i128, number: i64) -> i128
    requires { unsigned_abs sum ≤ 2 ^ 100 }
    ensures { result ≡ sum -ℤ number }
{
    sum - i128::from(number)
}

/// A product with a count.
fn times(number: i128, count: u64) -> i128
    requires { FitsSigned w128 (number *ℤ pos count) }
    ensures { result ≡ number *ℤ pos count }
{
    number * i128::from(count)
}

/// A number so many steps from another.
pub fn stepped(first: i128, step: i128, count: u64) -> i128
    requires product { unsigned_abs (step *ℤ pos count) ≤ 2 ^ 100 }
    requires first { unsigned_abs first ≤ 2 ^ 100 }
    ensures { result ≡ first +ℤ step *ℤ pos count }
{
    first + times(step, count)
}
