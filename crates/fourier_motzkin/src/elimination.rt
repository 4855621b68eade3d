//! One elimination of a variable.

ghost use Rattle.std.specs.Prelude.{◌≡◌, ◌<◌, ◌≤◌, ◌^◌, ◌+ℤ◌, ◌*ℤ◌, ℕ, ℤ, List, [], length, pos, neg_ℤ, unsigned_abs, filter, map, IfOk, OnOk, slice_index_or};
ghost use Rattle.std.specs.List.{All, flat_map, list_any};
ghost use Rattle.affine.specs.Rows.{Meets, coefficient, variables};
ghost use Rattle.affine.specs.Sums.{weighted};
ghost use Rattle.fourier_motzkin.specs.RowSets.{IsWithin, is_false, is_wide, is_wide_number, tidied, with_rows};
ghost use Rattle.fourier_motzkin.specs.Elimination.{AllOver, MeetsSaid, is_without, bounds_above, bounds_below, crossed, eliminated, judged};

use crate::row_set::RowSet;
use crate::tidying::{Tidying, is_constant};
use affine::Row;
use arrayvec::ArrayVec;
use std::alloc::{AllocError, Global};

/// The largest size of a number in a set of rows that stands.
pub const WIDEST: u128 = 1 << 62;

/// The largest number of rows in a set that stands.
pub const MOST_ROWS: usize = 512;

/// What is said of a set of rows that was tidied.
#[derive(Debug, Drop)]
pub enum Eliminated {
    /// It has a row without variables that is false.
    False,
    /// It has no such row, and has a number above 2^62 in size or more than 512 rows.
    Wide,
    /// Otherwise: the tidied rows.
    Rows(RowSet),
}

/// One elimination of a variable: the rows without it, and for each row P with a coefficient p > 0 on it and each
/// row N with -q < 0 the row q·P + p·N, tidied and judged (docs/DEFINITIONS.md, Elimination). The rows have numbers
/// of at most 2^62 in size and one number of variables, above `variable`. A point that meets them meets what is said.
pub fn eliminate(alloc: Global, rows: &[Row], variable: usize) -> Result<Eliminated, AllocError>
    requires within { All (IsWithin (2 ^ 62)) rows.now }
    requires over { (n : ℕ) × (variable < n) × AllOver n rows.now }
    ensures value { IfOk result (λ said. said ≡ eliminated variable rows.now) }
    ensures points { IfOk result (λ said. (point : List ℤ) → All (Meets point) rows.now → MeetsSaid point said) }
{
    let mut next = Tidying::new(alloc);
    add_without(&mut next, rows, variable)?;
    add_crossed(&mut next, rows, variable)?;
    Ok(judged(next.into_rows(alloc)?))
}

/// The rows, tidied and judged (docs/DEFINITIONS.md, Tidying). Numbers are at most 2^126 in size.
pub fn tidy(alloc: Global, rows: &[Row]) -> Result<Eliminated, AllocError>
    requires { All (IsWithin (2 ^ 126)) rows.now }
    ensures { IfOk result (λ said. said ≡ judged (tidied rows.now)) }
{
    let mut set = Tidying::new(alloc);
    for row in rows {
        set.add(row)?;
    }
    Ok(judged(set.into_rows(alloc)?))
}

/// Judges a tidied set.
fn judged(rows: Vec<Row>) -> Eliminated
    ensures { result ≡ judged rows.items }
{
    if has_false(&rows) {
        Eliminated::False
    } else if has_wide(&rows) || rows.len() > MOST_ROWS {
        Eliminated::Wide
    } else {
        Eliminated::Rows(RowSet::from_rows(rows))
    }
}

/// Whether some row has no variables and is false.
fn has_false(rows: &[Row]) -> bool
    ensures { result ≡ list_any is_false rows.now }
{
    rows.iter().any(|row| is_false(row))
}

/// Whether some row has a number above 2^62 in size.
fn has_wide(rows: &[Row]) -> bool
    ensures { result ≡ list_any is_wide rows.now }
{
    rows.iter().any(|row| is_wide(row))
}

/// Adds the rows that don't have the variable.
fn add_without(next: &mut Tidying, rows: &[Row], variable: usize) -> Result<(), AllocError>
    requires within { All (IsWithin (2 ^ 62)) rows.now }
    requires over { All (λ row. variable < variables row) rows.now }
    ensures { OnOk result (next.new ≡ with_rows next.old (filter (is_without variable) rows.now)) }
{
    for row in rows {
        if coefficient(row, variable) == 0 {
            next.add(row)?;
        }
    }
    Ok(())
}

/// Adds, for each row that bounds the variable below, its combinations with those that bound it above.
fn add_crossed(next: &mut Tidying, rows: &[Row], variable: usize) -> Result<(), AllocError>
    requires within { All (IsWithin (2 ^ 62)) rows.now }
    requires over { All (λ row. variable < variables row) rows.now }
    ensures { OnOk result (next.new ≡ with_rows next.old (flat_map (λ below. map (crossed variable below) (filter (bounds_above variable) rows.now)) (filter (bounds_below variable) rows.now))) }
{
    for row in rows {
        if coefficient(row, variable) > 0 {
            add_crossed_with(next, row, rows, variable)?;
        }
    }
    Ok(())
}

/// Adds the combinations of one row with those that bound the variable above.
fn add_crossed_with(
    next: &mut Tidying,
    below: &Row,
    rows: &[Row],
    variable: usize,
) -> Result<(), AllocError>
    requires below { IsWithin (2 ^ 62) below.now }
    requires has { variable < variables below.now }
    requires within { All (IsWithin (2 ^ 62)) rows.now }
    requires over { All (λ row. variable < variables row) rows.now }
    ensures { OnOk result (next.new ≡ with_rows next.old (map (crossed variable below.now) (filter (bounds_above variable) rows.now))) }
{
    for row in rows {
        if coefficient(row, variable) < 0 {
            next.add(&crossed(below, row, variable))?;
        }
    }
    Ok(())
}

/// Of a row P with the coefficient p > 0 on a variable and a row N with -q < 0 the row q·P + p·N, in which the variable
/// cancels. Their numbers are at most 2^62 in size, and those of the result at most 2^126; it isn't normal.
pub fn crossed(below: &Row, above: &Row, variable: usize) -> Row
    requires below { IsWithin (2 ^ 62) below.now }
    requires above { IsWithin (2 ^ 62) above.now }
    requires below_has { variable < variables below.now }
    requires above_has { variable < variables above.now }
    ensures value { result ≡ crossed variable below.now above.now }
    ensures within { IsWithin (2 ^ 126) result }
{
    let p = coefficient(below, variable);
    let q = negated(coefficient(above, variable));
    Row {
        coef: weighted_sums(q, below.coef.as_slice(), p, above.coef.as_slice()),
        cst: weighted_sum(q, below.cst, p, above.cst),
    }
}

/// q times the one list plus p times the other, place by place.
fn weighted_sums(q: i128, xs: &[i128], p: i128, ys: &[i128]) -> ArrayVec<i128, 16>
    requires few { length xs.now ≤ 16 }
    requires q { unsigned_abs q ≤ 2 ^ 62 }
    requires xs { All (λ x. unsigned_abs x ≤ 2 ^ 62) xs.now }
    requires p { unsigned_abs p ≤ 2 ^ 62 }
    requires ys { All (λ y. unsigned_abs y ≤ 2 ^ 62) ys.now }
    ensures value { result.items ≡ weighted q xs.now p ys.now }
    ensures size { All (λ number. unsigned_abs number ≤ 2 ^ 126) result.items }
{
    let mut sums = ArrayVec::new();
    for (x, y) in xs.iter().zip(ys) {
        sums.push(weighted_sum(q, *x, p, *y));
    }
    sums
}

/// q times x plus p times y, where all are at most 2^62 in size: each product is at most 2^124.
fn weighted_sum(q: i128, x: i128, p: i128, y: i128) -> i128
    requires q { unsigned_abs q ≤ 2 ^ 62 }
    requires x { unsigned_abs x ≤ 2 ^ 62 }
    requires p { unsigned_abs p ≤ 2 ^ 62 }
    requires y { unsigned_abs y ≤ 2 ^ 62 }
    ensures value { result ≡ q *ℤ x +ℤ p *ℤ y }
    ensures size { unsigned_abs result ≤ 2 ^ 126 }
{
    q * x + p * y
}

/// A number of at most 2^126 in size with the other sign.
pub(crate) fn negated(number: i128) -> i128
    requires { unsigned_abs number ≤ 2 ^ 126 }
    ensures value { result ≡ neg_ℤ number }
    ensures size { unsigned_abs result ≡ unsigned_abs number }
{
    -number
}

/// The coefficient of a variable, which the row has.
pub fn coefficient(row: &Row, variable: usize) -> i128
    requires { variable < variables row.now }
    ensures { result ≡ coefficient row.now variable }
{
    row.coef.as_slice()[variable]
}

/// Whether the row has no variables and is false.
pub fn is_false(row: &Row) -> bool
    ensures { result ≡ is_false row.now }
{
    is_constant(row) && row.cst < 0
}

/// Whether a number is above 2^62 in size.
fn is_wide(row: &Row) -> bool
    ensures { result ≡ is_wide row.now }
{
    has_wide_number(row.coef.as_slice()) || is_wide_number(row.cst)
}

/// Whether some number is above 2^62 in size.
fn has_wide_number(numbers: &[i128]) -> bool
    ensures { result ≡ list_any is_wide_number numbers.now }
{
    numbers.iter().any(|number| is_wide_number(*number))
}

/// Whether the number is above 2^62 in size.
fn is_wide_number(number: i128) -> bool
    ensures { result ≡ is_wide_number number }
{
    number.unsigned_abs() > WIDEST
}
