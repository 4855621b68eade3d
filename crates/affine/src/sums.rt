//! Exact sums of products.

ghost use Rattle.std.specs.Prelude.{◌≡◌, ◌+◌, ◌≤◌, ◌<◌, ◌^◌, ◌+ℤ◌, ◌*ℤ◌, FitsSigned, unsigned_abs};
ghost use Rattle.std.specs.Int.{w128};
ghost use Rattle.affine.specs.Forms.{AllWithinSize};
ghost use Rattle.affine.specs.Sums.{dot};

/// The sum of the products, place by place. No step overflows: the factors are at most 2^40 and 2^63 in size,
/// and there are at most 6.
pub fn dot<const D: usize>(coef: &[i64; D], point: &[i64; D]) -> i128
    requires few { D < 7 }
    requires small { AllWithinSize (2 ^ 40) coef.now }
    ensures value { result ≡ dot coef.now point.now }
    ensures size { unsigned_abs result < 2 ^ 106 }
{
    let mut sum = 0;
    for place in 0..D {
        sum = with_product(sum, coef[place], point[place]);
    }
    sum
}

/// A sum and a product.
pub fn with_product(sum: i128, x: i64, y: i64) -> i128
    requires { FitsSigned w128 (sum +ℤ x *ℤ y) }
    ensures { result ≡ sum +ℤ x *ℤ y }
{
    sum + i128::from(x) * i128::from(y)
}
