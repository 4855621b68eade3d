//! Square matrices that schedules are made of.

ghost use Rattle.std.specs.Prelude.{◌≡◌, ◌≤◌, ◌<◌, ◌≢◌, ◌^◌, ◌+ℤ◌, ◌*ℤ◌, ℤ, pos, length, slice_index_or, slice_set, swap, unsigned_abs, FitsSigned, List, []};
ghost use Rattle.std.specs.Int.{w64};
ghost use Rattle.std.specs.List.{All};
ghost use Rattle.affine.specs.Forms.{AllWithinSize};
ghost use Rattle.affine.specs.Matrices.{identity, product, skew, unit_row};
ghost use Rattle.affine.specs.Sums.{weighted};

use crate::sums::{dot, with_product};
use std::marker::Model;

/// A matrix of D rows of D entries, each at most 2^20 in size.
#[derive(Clone, Copy, Debug, PartialEq, Eq)]
pub struct Matrix<const D: usize> {
    /// The rows, from the first.
    pub rows: [[i64; D]; D],
}

impl<const D: usize> Model for Matrix<D> {
    ghost use Rattle.std.specs.Prelude.{List, ℤ};
    ghost use Rattle.affine.specs.Matrices.{HasSmallEntries};

    ghost Value = { List (List ℤ) };

    ghost view = { λ matrix. matrix.rows };

    ghost invariant = { λ matrix. HasSmallEntries matrix.rows };

    ghost inverse = { λ rows. record { rows = rows } };
}

impl<const D: usize> Matrix<D> {
    /// The unit matrix: 1 at the places where row and column agree, and 0 elsewhere.
    pub fn identity() -> Matrix<D>
        ensures { result ≡ identity D }
    {
        let mut rows = [[0; D]; D];
        for place in 0..D {
            rows[place] = unit_row(place);
        }
        Matrix { rows }
    }

    /// Exchanges two rows.
    pub fn swap(&mut self, a: usize, b: usize)
        requires first { a < D }
        requires second { b < D }
        ensures { self.new ≡ swap self.old a b }
    {
        self.rows.swap(a, b);
    }

    /// Adds m times row b to row a, which are different rows; the new entries are at most 2^20 in size.
    pub fn skew(&mut self, a: usize, b: usize, m: i64)
        requires first { a < D }
        requires second { b < D }
        requires different { a ≢ b }
        requires small { AllWithinSize (2 ^ 20) (slice_index_or (skew self.old a b m) a []) }
        ensures { self.new ≡ skew self.old a b m }
    {
        let rows = &mut self.rows[..];
        let row = with_times(&rows[a], m, &rows[b]);
        rows[a] = row;
    }

    /// The product with a point: at each place the sum of that row's products, which is below 2^106 in size. D is at
    /// most 6.
    pub fn map(&self, point: &[i64; D]) -> [i128; D]
        requires { D < 7 }
        ensures value { result ≡ product self.now point.now }
        ensures size { All (λ number. unsigned_abs number < 2 ^ 106) result }
    {
        let mut places = [0; D];
        for place in 0..D {
            places[place] = dot(&self.rows[place], point);
        }
        places
    }
}

/// The row with 1 at a place and 0 elsewhere.
fn unit_row<const D: usize>(place: usize) -> [i64; D]
    requires { place < D }
    ensures { result ≡ unit_row D place }
{
    let mut row = [0; D];
    row[place] = 1;
    row
}

/// A row with m times another.
fn with_times<const D: usize>(row: &[i64; D], m: i64, other: &[i64; D]) -> [i64; D]
    requires { AllWithinSize (2 ^ 20) (weighted (pos 1) row.now m other.now) }
    ensures { result ≡ weighted (pos 1) row.now m other.now }
{
    let mut sums = *row;
    for place in 0..D {
        sums[place] = plus_times(row[place], m, other[place]);
    }
    sums
}

/// A number and m times another.
fn plus_times(x: i64, m: i64, y: i64) -> i64
    requires { FitsSigned w64 (x +ℤ m *ℤ y) }
    ensures { result ≡ x +ℤ m *ℤ y }
{
    with_product(i128::from(x), m, y) as i64
}
