//! Affine forms over the counters of a nest.

ghost use Rattle.std.specs.Prelude.{◌≡◌, ◌+◌, ◌≤◌, ◌<◌, ◌↔◌, ◌^◌, ◌+ℤ◌, ◌-ℤ◌, ◌*ℤ◌, FitsSigned, IsSome, IfSome, unsigned_abs};
ghost use Rattle.std.specs.Int.{w128};
ghost use Rattle.affine.specs.Forms.{AllWithinSize, value_at};
ghost use Rattle.affine.specs.Sums.{dot};

use crate::sums::dot;
use std::marker::Model;

/// The largest size of a coefficient.
pub const LARGEST_COEFFICIENT: u64 = 1 << 40;

/// A form over D counters: each coefficient times its counter, and a constant. Each coefficient is at most
/// 2^40 in size.
#[derive(Clone, Copy, Debug, PartialEq, Eq)]
pub struct Form<const D: usize> {
    /// The coefficients, one for each counter in order.
    pub coef: [i64; D],
    /// The constant.
    pub cst: i64,
}

impl<const D: usize> Model for Form<D> {
    ghost use Rattle.std.specs.Prelude.{◌^◌};
    ghost use Rattle.affine.specs.Forms.{Affine, AllWithinSize};

    ghost Value = { Affine };

    ghost view = { λ form. record { coef = form.coef; cst = form.cst } };

    ghost invariant = { λ form. AllWithinSize (2 ^ 40) form.coef };

    ghost inverse = { λ form. record { coef = form.coef; cst = form.cst } };
}

impl<const D: usize> Form<D> {
    /// The form with these numbers; None exactly where a coefficient is above 2^40 in size.
    pub fn new(coef: [i64; D], cst: i64) -> Option<Form<D>>
        ensures some { IsSome result ↔ AllWithinSize (2 ^ 40) coef.entry }
        ensures value { IfSome result (λ form. form ≡ record { coef = coef.entry; cst = cst }) }
    {
        if coef
            .iter()
            .all(|number| number.unsigned_abs() <= LARGEST_COEFFICIENT)
        {
            Some(Form { coef, cst })
        } else {
            None
        }
    }

    /// The value at a point: the sum of the products, plus the constant. D is at most 6.
    pub fn at(&self, point: &[i64; D]) -> i128
        requires { D < 7 }
        ensures { result ≡ value_at self.now point.now }
    {
        plus(dot(&self.coef, point), self.cst)
    }

    /// The residual of a value at a point: the value less the form's value there. The value is at most 2^64 in
    /// size, and D is at most 6.
    pub fn residual(&self, point: &[i64; D], value: i128) -> i128
        requires few { D < 7 }
        requires small { unsigned_abs value ≤ 2 ^ 64 }
        ensures value { result ≡ value -ℤ value_at self.now point.now }
        ensures size { unsigned_abs result < 2 ^ 107 }
    {
        let products = dot(&self.coef, point);
        minus(value, plus(products, self.cst))
    }
}

/// A sum.
fn plus(sum: i128, number: i64) -> i128
    requires { FitsSigned w128 (sum +ℤ number) }
    ensures { result ≡ sum +ℤ number }
{
    sum + i128::from(number)
}

/// A difference.
fn minus(value: i128, sum: i128) -> i128
    requires { FitsSigned w128 (value -ℤ sum) }
    ensures { result ≡ value -ℤ sum }
{
    value - sum
}
