//! Constraints on a chunk's first turn and the counters of two instances, and their rows.

ghost use Rattle.std.specs.Prelude.{◌≡◌, ◌≤◌, ◌<◌, ◌+◌, ◌^◌, ◌-ℤ◌, ℤ, pos, List, length, slice_index_or, unsigned_abs};
ghost use Rattle.std.specs.List.{All};
ghost use Rattle.affine.specs.Rows.{variables};
ghost use Rattle.fourier_motzkin.specs.RowSets.{IsWithin};
ghost use Rattle.dependence.specs.Terms.{term_of, IsNarrow};
ghost use Rattle.dependence.specs.Comparisons.{on_turn, on_x, on_y, alone, at_most, less, row_for};

use affine::Row;
use arrayvec::ArrayVec;
use std::marker::Model;

/// A form over D counters, with numbers of at most 2^99 in size where a row is made of it.
#[derive(Clone, Copy)]
pub struct Sum<const D: usize> {
    pub coef: [i128; D],
    pub cst: i128,
}

impl<const D: usize> Model for Sum<D> {
    ghost use Rattle.affine.specs.Forms.{Affine};

    ghost Value = { Affine };

    ghost view = { λ sum. record { coef = sum.coef; cst = sum.cst } };

    ghost inverse = { λ sum. record { coef = sum.coef; cst = sum.cst } };
}

/// A side of a constraint, for two instances x and y of a chunk: a number; the chunk's first turn and a number; a form
/// at the counters of x; a form at those of y.
#[derive(Clone, Copy)]
pub enum Term<const D: usize> {
    Number(i128),
    Turn(i128),
    AtX(Sum<D>),
    AtY(Sum<D>),
}

impl<const D: usize> Term<D> {
    /// The coefficient on the first turn.
    fn on_turn(&self) -> i128
        ensures { result ≡ on_turn (term_of self.now) }
    {
        match self {
            Term::Turn(_) => 1,
            _ => 0,
        }
    }

    /// The coefficient on a counter of x.
    fn on_x(&self, counter: usize) -> i128
        requires { counter < D }
        ensures { result ≡ slice_index_or (on_x (term_of self.now)) counter (pos 0) }
    {
        match self {
            Term::AtX(sum) => sum.coef[counter],
            _ => 0,
        }
    }

    /// The coefficient on a counter of y.
    fn on_y(&self, counter: usize) -> i128
        requires { counter < D }
        ensures { result ≡ slice_index_or (on_y (term_of self.now)) counter (pos 0) }
    {
        match self {
            Term::AtY(sum) => sum.coef[counter],
            _ => 0,
        }
    }

    /// The constant.
    fn alone(&self) -> i128
        ensures { result ≡ alone (term_of self.now) }
    {
        match self {
            Term::Number(number) => *number,
            Term::Turn(more) => *more,
            Term::AtX(sum) => sum.cst,
            Term::AtY(sum) => sum.cst,
        }
    }
}

/// A difference.
fn minus(a: i128, b: i128) -> i128
    requires a { unsigned_abs a ≤ 2 ^ 99 }
    requires b { unsigned_abs b ≤ 2 ^ 99 }
    ensures value { result ≡ a -ℤ b }
    ensures size { unsigned_abs result ≤ 2 ^ 100 }
{
    a - b
}

/// The row that says that left is at most right, for so many counters of x and of y: its variables are the chunk's first
/// turn, the counters of x, and the counters of y. Numbers are at most 2^99 in size, and those of the row at most 2^100.
pub fn row_for<const D: usize>(x: usize, y: usize, left: &Term<D>, right: &Term<D>) -> Row
    requires x { x ≤ D }
    requires y { y ≤ D }
    requires few { D < 7 }
    requires left { IsNarrow (term_of left.now) }
    requires right { IsNarrow (term_of right.now) }
    ensures value { result ≡ row_for x y (at_most (term_of left.now) (term_of right.now)) }
    ensures within { IsWithin (2 ^ 100) result }
    ensures over { variables result ≡ 1 + (x + y) }
{
    let mut coef = ArrayVec::new();
    coef.push(right.on_turn() - left.on_turn());
    for counter in 0..x {
        coef.push(minus(right.on_x(counter), left.on_x(counter)));
    }
    for counter in 0..y {
        coef.push(minus(right.on_y(counter), left.on_y(counter)));
    }
    Row {
        coef,
        cst: minus(right.alone(), left.alone()),
    }
}
