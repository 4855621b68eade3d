//! Sums of rows.

ghost use Rattle.std.specs.Prelude.{◌≡◌, ◌≤◌, ◌^◌, ◌+ℤ◌, ◌*ℤ◌, pos, true, false, length, unsigned_abs};
ghost use Rattle.std.specs.List.{All, list_any};
ghost use Rattle.affine.specs.Rows.{combination, normal};
ghost use Rattle.affine.specs.Sums.{weighted};
ghost use Rattle.fourier_motzkin.specs.RowSets.{is_wide, is_wide_number};

use affine::Row;
use arrayvec::ArrayVec;
use fourier_motzkin::elimination::WIDEST;

/// The normal form of p times a row plus q times another, where no number is above 2^62 in size.
pub(crate) fn sum(p: u64, left: &Row, q: u64, right: &Row) -> Row
    requires p { p ≤ 2 ^ 62 }
    requires q { q ≤ 2 ^ 62 }
    requires left { is_wide left.now ≡ false }
    requires right { is_wide right.now ≡ false }
    ensures { result ≡ normal (combination (pos p) left.now (pos q) right.now) }
{
    let p = i128::from(p);
    let q = i128::from(q);
    let sum = Row {
        coef: weighted_sums(p, left.coef.as_slice(), q, right.coef.as_slice()),
        cst: weighted_sum(p, left.cst, q, right.cst),
    };
    sum.normal()
}

/// p times the one list plus q times the other, place by place.
fn weighted_sums(p: i128, xs: &[i128], q: i128, ys: &[i128]) -> ArrayVec<i128, 16>
    requires few { length xs.now ≤ 16 }
    requires p { unsigned_abs p ≤ 2 ^ 62 }
    requires xs { All (λ x. unsigned_abs x ≤ 2 ^ 62) xs.now }
    requires q { unsigned_abs q ≤ 2 ^ 62 }
    requires ys { All (λ y. unsigned_abs y ≤ 2 ^ 62) ys.now }
    ensures value { result.items ≡ weighted p xs.now q ys.now }
    ensures size { All (λ number. unsigned_abs number ≤ 2 ^ 126) result.items }
{
    let mut sums = ArrayVec::new();
    for (x, y) in xs.iter().zip(ys) {
        sums.push(weighted_sum(p, *x, q, *y));
    }
    sums
}

/// p times x plus q times y, where all are at most 2^62 in size: each product is at most 2^124.
fn weighted_sum(p: i128, x: i128, q: i128, y: i128) -> i128
    requires p { unsigned_abs p ≤ 2 ^ 62 }
    requires x { unsigned_abs x ≤ 2 ^ 62 }
    requires q { unsigned_abs q ≤ 2 ^ 62 }
    requires y { unsigned_abs y ≤ 2 ^ 62 }
    ensures value { result ≡ p *ℤ x +ℤ q *ℤ y }
    ensures size { unsigned_abs result ≤ 2 ^ 126 }
{
    p * x + q * y
}

/// Whether a row has a number above 2^62 in size.
pub(crate) fn is_wide(row: &Row) -> bool
    ensures { result ≡ is_wide row.now }
{
    has_wide_number(row.coef.as_slice()) || is_wide_number(row.cst)
}

/// Whether some number is above 2^62 in size.
fn has_wide_number(numbers: &[i128]) -> bool
    ensures { result ≡ list_any is_wide_number numbers.now }
{
    numbers.iter().any(|number| is_wide_number(*number))
}

/// Whether the number is above 2^62 in size.
fn is_wide_number(number: i128) -> bool
    ensures { result ≡ is_wide_number number }
{
    number.unsigned_abs() > WIDEST
}
