//! Matrices that have an inverse of whole numbers.

ghost use Rattle.std.specs.Prelude.{◌≡◌, ◌≢◌, ◌<◌, ◌^◌, neg_ℤ, slice_index_or, swap, unsigned_abs, []};
ghost use Rattle.affine.specs.Forms.{AllWithinSize};
ghost use Rattle.affine.specs.Inverses.{IsInverse};
ghost use Rattle.affine.specs.Matrices.{identity, skew};

use crate::Matrix;
use std::marker::Model;

/// A matrix of D rows that maps whole-number points one to one and onto, with its inverse. It is made from the unit
/// matrix by exchanges and skews of rows.
#[derive(Clone, Copy, Debug, PartialEq, Eq)]
pub struct Unimodular<const D: usize> {
    matrix: Matrix<D>,
    columns: Matrix<D>,
}

impl<const D: usize> Model for Unimodular<D> {
    ghost use Rattle.affine.specs.Inverses.{Inverted, IsInverse};

    ghost Value = { Inverted };

    ghost view = { λ made. record { rows = made.matrix; columns = made.columns } };

    ghost invariant = { λ made. IsInverse D made.matrix made.columns };

    ghost inverse = { λ made. record { matrix = made.rows; columns = made.columns } };
}

impl<const D: usize> Unimodular<D> {
    /// The unit matrix.
    pub fn identity() -> Unimodular<D>
        ensures { result ≡ record { rows = identity D; columns = identity D } }
    {
        Unimodular {
            matrix: Matrix::identity(),
            columns: Matrix::identity(),
        }
    }

    /// The matrix.
    pub fn matrix(&self) -> &Matrix<D>
        ensures value { result.now ≡ self.now.rows }
        ensures inverse { IsInverse D self.now.rows self.now.columns }
    {
        &self.matrix
    }

    /// The inverse of the matrix, by its columns: row k of what is given is column k of the inverse.
    pub fn columns(&self) -> &Matrix<D>
        ensures value { result.now ≡ self.now.columns }
        ensures inverse { IsInverse D self.now.rows self.now.columns }
    {
        &self.columns
    }

    /// Exchanges two rows.
    pub fn swap(&mut self, a: usize, b: usize)
        requires first { a < D }
        requires second { b < D }
        ensures { self.new ≡ record { rows = swap self.old.rows a b; columns = swap self.old.columns a b } }
    {
        self.matrix.swap(a, b);
        self.columns.swap(a, b);
    }

    /// Adds m times row b to row a, which are different rows. The new entries of the matrix and of its inverse are
    /// at most 2^20 in size.
    pub fn skew(&mut self, a: usize, b: usize, m: i64)
        requires first { a < D }
        requires second { b < D }
        requires different { a ≢ b }
        requires factor { unsigned_abs m < 2 ^ 63 }
        requires row { AllWithinSize (2 ^ 20) (slice_index_or (skew self.old.rows a b m) a []) }
        requires column { AllWithinSize (2 ^ 20) (slice_index_or (skew self.old.columns b a (neg_ℤ m)) b []) }
        ensures { self.new ≡ record { rows = skew self.old.rows a b m; columns = skew self.old.columns b a (neg_ℤ m) } }
    {
        self.matrix.skew(a, b, m);
        self.columns.skew(b, a, -m);
    }
}
