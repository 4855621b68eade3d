//! A whole-number inequality, and its normal form.

ghost use Rattle.std.specs.Prelude.{◌≡◌, ◌≤◌, ◌<ℤ◌, ◌^◌, pos, length, map, max, unsigned_abs};
ghost use Rattle.std.specs.Int.{int_div_euclid};
ghost use Rattle.std.specs.List.{All};
ghost use Rattle.affine.specs.Divisors.{gcd, common_divisor};
ghost use Rattle.affine.specs.Rows.{normal};

use arrayvec::ArrayVec;

/// A row over at most 16 variables: the sum of each coefficient times its variable, plus the constant,
/// is at least 0.
#[derive(Clone, Debug, Drop, PartialEq, Eq)]
pub struct Row {
    /// The coefficients, one for each variable in order.
    pub coef: ArrayVec<i128, 16>,
    /// The constant.
    pub cst: i128,
}

impl Row {
    /// The normal form: coefficients and constant over the greatest common divisor of the coefficients,
    /// the constant rounded down. A row without variables stays. It is met by the same whole-number points.
    pub fn normal(&self) -> Row
        requires coef { All (λ number. unsigned_abs number ≤ 2 ^ 126) self.now.coef.items }
        requires cst { unsigned_abs self.now.cst ≤ 2 ^ 126 }
        ensures { result ≡ normal self.now }
    {
        let divisor = self.divisor();
        Row {
            coef: quotients(self.coef.as_slice(), divisor),
            cst: floor(self.cst, divisor),
        }
    }

    /// The greatest common divisor of the coefficients, or 1 where there are no variables.
    fn divisor(&self) -> i128
        requires { All (λ number. unsigned_abs number ≤ 2 ^ 126) self.now.coef.items }
        ensures { result ≡ pos (max (common_divisor self.now.coef.items) 1) }
    {
        greatest_divisor(self.coef.as_slice()).max(1) as i128
    }
}

/// The quotients, each rounded down.
fn quotients(numbers: &[i128], divisor: i128) -> ArrayVec<i128, 16>
    requires few { length numbers.now ≤ 16 }
    requires positive { pos 0 <ℤ divisor }
    ensures { result.items ≡ map (λ number. int_div_euclid number divisor) numbers.now }
{
    let mut quotients = ArrayVec::new();
    for number in numbers {
        quotients.push(floor(*number, divisor));
    }
    quotients
}

/// The quotient rounded down.
pub fn floor(number: i128, divisor: i128) -> i128
    requires { pos 0 <ℤ divisor }
    ensures { result ≡ int_div_euclid number divisor }
{
    number.div_euclid(divisor)
}

/// The greatest common divisor of the sizes; 0 where all are 0.
#[tactic(auto, using(crate::proofs::DivisorLaws::divisors))]
fn greatest_divisor(numbers: &[i128]) -> u128
    ensures { result ≡ common_divisor numbers.now }
{
    let mut divisor = 0;
    for number in numbers {
        divisor = gcd(number.unsigned_abs(), divisor);
    }
    divisor
}

/// The greatest common divisor of two numbers.
fn gcd(first: u128, second: u128) -> u128
    ensures { result ≡ gcd first second }
{
    let mut a = first;
    let mut b = second;
    while b != 0 {
        (a, b) = (b, a % b);
    }
    a
}
