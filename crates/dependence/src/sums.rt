//! Forms with wide numbers.

ghost use Rattle.std.specs.Prelude.{◌≡◌, ◌<◌, ◌≤◌, ◌+◌, ◌^◌, ◌+ℤ◌, ◌*ℤ◌, ℕ, pos, map, unsigned_abs};
ghost use Rattle.domain.specs.Tables.{cut, zero_form};
ghost use Rattle.dependence.specs.Systems.{counter_form, shifted};
ghost use Rattle.dependence.specs.Legality.{plus};
ghost use Rattle.dependence.specs.Terms.{IsShort};

use crate::comparison::Sum;
use affine::Form;

/// The same number.
fn widened(number: i64) -> i128
    ensures value { result ≡ number }
    ensures size { unsigned_abs result ≤ 2 ^ 63 }
{
    i128::from(number)
}

/// A number and another.
fn plus(sum: i128, number: i64) -> i128
    requires { unsigned_abs sum ≤ 2 ^ 98 }
    ensures value { result ≡ sum +ℤ number }
    ensures size { unsigned_abs result ≤ 2 ^ 99 }
{
    sum + i128::from(number)
}

/// A product and another number.
fn product_plus(factor: i64, number: i128, sum: i128) -> i128
    requires factor { unsigned_abs factor ≤ 2 ^ 20 }
    requires number { unsigned_abs number ≤ 2 ^ 63 }
    requires sum { unsigned_abs sum ≤ 2 ^ 97 }
    ensures value { result ≡ factor *ℤ number +ℤ sum }
    ensures size { unsigned_abs result ≤ 2 ^ 83 + unsigned_abs sum }
{
    i128::from(factor) * number + sum
}

impl<const D: usize> Sum<D> {
    /// The form that is 0.
    pub(crate) fn zero() -> Sum<D>
        ensures value { result ≡ zero_form D }
        ensures short { IsShort 0 result }
    {
        Sum {
            coef: [0; D],
            cst: 0,
        }
    }

    /// The form that is the counter of a place.
    pub(crate) fn counter(place: usize) -> Sum<D>
        requires { place < D }
        ensures value { result ≡ counter_form D place }
        ensures short { IsShort 1 result }
    {
        let mut coef = [0; D];
        coef[place] = 1;
        Sum { coef, cst: 0 }
    }

    /// A form of a prediction.
    pub(crate) fn of(form: &Form<D>) -> Sum<D>
        ensures value { result ≡ form.now }
        ensures short { IsShort (2 ^ 63) result }
    {
        let mut coef = [0; D];
        for place in 0..D {
            coef[place] = widened(form.coef[place]);
        }
        Sum {
            coef,
            cst: widened(form.cst),
        }
    }

    /// The form over the first counters alone.
    pub(crate) fn cut(&self, places: usize) -> Sum<D>
        requires { D < 7 }
        ensures value { result ≡ record { coef = cut places self.now.coef; cst = self.now.cst } }
        ensures short { (most : ℕ) → IsShort most self.now → IsShort most result }
    {
        let mut coef = self.coef;
        for place in places..D {
            coef[place] = 0;
        }
        Sum {
            coef,
            cst: self.cst,
        }
    }

    /// The form and a number.
    pub(crate) fn shifted(&self, number: i64) -> Sum<D>
        requires { IsShort (2 ^ 98) self.now }
        ensures value { result ≡ shifted number self.now }
        ensures short { IsShort (2 ^ 99) result }
    {
        Sum {
            coef: self.coef,
            cst: plus(self.cst, number),
        }
    }

    /// A number times the form, and another form.
    pub(crate) fn times_plus(&self, factor: i64, rest: &Sum<D>) -> Sum<D>
        requires factor { unsigned_abs factor ≤ 2 ^ 20 }
        requires short { IsShort (2 ^ 63) self.now }
        requires rest { IsShort (2 ^ 97) rest.now }
        ensures value { result ≡ record { coef = plus (map (λ c. factor *ℤ c) self.now.coef) rest.now.coef; cst = factor *ℤ self.now.cst +ℤ rest.now.cst } }
        ensures short { (most : ℕ) → IsShort most rest.now → IsShort (2 ^ 83 + most) result }
    {
        let mut coef = [0; D];
        for place in 0..D {
            coef[place] = product_plus(factor, self.coef[place], rest.coef[place]);
        }
        Sum {
            coef,
            cst: product_plus(factor, self.cst, rest.cst),
        }
    }
}
