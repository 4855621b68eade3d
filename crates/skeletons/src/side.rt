//! Sums over the numbers of a padded point.

ghost use Rattle.std.specs.Prelude.{◌≡◌, ◌<◌, ◌≤◌, ◌^◌, ◌-ℤ◌, ◌≤ℤ◌, ◌<ℤ◌, ◌↔◌, ℤ, pos, List, length, map, unsigned_abs, neg_ℤ};
ghost use Rattle.affine.specs.Forms.{AllWithinSize, value_at};
ghost use Rattle.affine.specs.Inverses.{across, IsSquare};
ghost use Rattle.affine.specs.Matrices.{HasSmallEntries};
ghost use Rattle.affine.specs.Rows.{Meets, coefficient, row_of, sum_at, variables};
ghost use Rattle.fourier_motzkin.specs.Ranges.{IsAlone};
ghost use Rattle.domain.specs.Instances.{counter};
ghost use Rattle.fourier_motzkin.specs.RowSets.{IsWithin};
ghost use Rattle.domain.specs.Tables.{cut, depth};
ghost use Rattle.skeletons.specs.Places.{IsNarrow, cut_less, flat, less_place, trip_less, turned};

use affine::{Form, Matrix, Row};
use arrayvec::ArrayVec;
use domain::Prediction;
use std::marker::Model;

/// How far from 0 the numbers of a place are scanned.
const FARTHEST: i128 = 1 << 59;

/// A sum over the numbers of a padded point: each coefficient times its number, and a constant.
#[derive(Clone, Copy)]
pub(crate) struct Side<const D: usize> {
    pub coef: [i64; D],
    pub cst: i128,
}

impl<const D: usize> Model for Side<D> {
    ghost use Rattle.affine.specs.Forms.{Affine};

    ghost Value = { Affine };

    ghost view = { λ side. record { coef = side.coef; cst = side.cst } };

    ghost inverse = { λ side. record { coef = side.coef; cst = side.cst } };
}

/// The first numbers, and zeros in place of the others.
pub(crate) fn cut<const D: usize>(numbers: &[i64; D], places: usize) -> [i64; D]
    requires { D < 7 }
    ensures { result ≡ cut places numbers.now }
{
    let mut point = *numbers;
    for place in places..D {
        point[place] = 0;
    }
    point
}

/// A difference.
fn difference(first: i64, second: i64) -> i128
    ensures value { result ≡ first -ℤ second }
    ensures size { unsigned_abs result ≤ 2 ^ 64 }
{
    i128::from(first) - i128::from(second)
}

/// A number less 1.
fn lowered(number: i64) -> i64
    requires { unsigned_abs number ≤ 2 ^ 40 }
    ensures value { result ≡ number -ℤ pos 1 }
    ensures size { unsigned_abs result ≤ 2 ^ 41 }
{
    number - 1
}

/// A number with its sign turned.
fn negative(number: i64) -> i64
    requires { unsigned_abs number ≤ 2 ^ 41 }
    ensures value { result ≡ neg_ℤ number }
    ensures size { unsigned_abs result ≤ 2 ^ 41 }
{
    -number
}

/// A number with its sign turned.
fn opposite(number: i128) -> i128
    requires { unsigned_abs number ≤ 2 ^ 80 }
    ensures { result ≡ neg_ℤ number }
{
    -number
}

/// The numbers with the sign turned.
fn turned<const D: usize>(numbers: &[i64; D]) -> [i64; D]
    requires few { D < 7 }
    requires small { AllWithinSize (2 ^ 41) numbers.now }
    ensures { result ≡ map (λ number. neg_ℤ number) numbers.now }
{
    let mut others = [0; D];
    for place in 0..D {
        others[place] = negative(numbers[place]);
    }
    others
}

impl<const D: usize> Side<D> {
    /// A number.
    pub(crate) fn number(number: i128) -> Side<D>
        requires { unsigned_abs number ≤ 2 ^ 80 }
        ensures value { result ≡ flat D number }
        ensures narrow { IsNarrow (2 ^ 40) result }
    {
        Side {
            coef: [0; D],
            cst: number,
        }
    }

    /// The first coefficients of a form, and less by a number.
    fn cut_less(form: &Form<D>, places: usize, less: i64) -> Side<D>
        requires { D < 7 }
        ensures value { result ≡ cut_less places less form.now }
        ensures narrow { IsNarrow (2 ^ 40) result }
    {
        Side {
            coef: cut(&form.coef, places),
            cst: difference(form.cst, less),
        }
    }

    /// The trip of the loop inside so many others, and less by a number.
    pub(crate) fn trip(pred: &Prediction<D>, around: usize, less: i64) -> Side<D>
        requires few { D < 7 }
        requires inside { around < D }
        requires deep { depth pred.now ≡ D }
        ensures value { result ≡ trip_less pred.now around less }
        ensures narrow { IsNarrow (2 ^ 40) result }
    {
        match &pred.level(around).trip {
            Some(form) => Side::cut_less(form, around, less),
            None => Side::number(difference(0, less)),
        }
    }

    /// The sum less a number of the point.
    pub(crate) fn less_place(&self, place: usize) -> Side<D>
        requires inside { place < D }
        requires narrow { IsNarrow (2 ^ 40) self.now }
        ensures value { result ≡ less_place place self.now }
        ensures long { length self.now.coef ≡ D }
    {
        let mut coef = self.coef;
        coef[place] = lowered(coef[place]);
        Side {
            coef,
            cst: self.cst,
        }
    }

    /// The sum with its sign turned.
    pub(crate) fn turned(&self) -> Side<D>
        requires few { D < 7 }
        requires narrow { IsNarrow (2 ^ 41) self.now }
        ensures { result ≡ turned self.now }
    {
        Side {
            coef: turned(&self.coef),
            cst: opposite(self.cst),
        }
    }

    /// The row over places that says that the sum over the padded point is at least 0, by the columns of the inverse.
    pub(crate) fn row(&self, columns: &Matrix<D>) -> Row
        requires few { D < 7 }
        requires square { IsSquare D columns.now }
        requires small { HasSmallEntries columns.now }
        requires narrow { IsNarrow (2 ^ 41) self.now }
        ensures value { (place : List ℤ) → length place ≡ D → sum_at result place ≡ value_at self.now (across D columns.now place) }
        ensures over { variables result ≡ D }
        ensures within { IsWithin (2 ^ 100) result }
    {
        Row {
            coef: numbers(&columns.map(&self.coef)),
            cst: self.cst,
        }
    }

    /// The row that says that the sum over a place itself is at least 0.
    fn plain_row(&self) -> Row
        requires few { D < 7 }
        requires narrow { IsNarrow (2 ^ 41) self.now }
        ensures value { result ≡ row_of self.now.coef self.now.cst }
        ensures over { variables result ≡ D }
        ensures within { IsWithin (2 ^ 100) result }
    {
        Row {
            coef: small_numbers(&self.coef),
            cst: self.cst,
        }
    }

    /// The row that says that a number of the padded point is at most the sum.
    pub(crate) fn below(&self, place: usize, columns: &Matrix<D>) -> Row
        requires few { D < 7 }
        requires inside { place < D }
        requires square { IsSquare D columns.now }
        requires small { HasSmallEntries columns.now }
        requires narrow { IsNarrow (2 ^ 40) self.now }
        ensures over { variables result ≡ D }
        ensures within { IsWithin (2 ^ 100) result }
        ensures meets { (z : List ℤ) → length z ≡ D → Meets z result ↔ (counter (across D columns.now z) place ≤ℤ value_at self.now (across D columns.now z)) }
    {
        self.less_place(place).row(columns)
    }

    /// The row that says that a number of the padded point is at least the sum.
    pub(crate) fn above(&self, place: usize, columns: &Matrix<D>) -> Row
        requires few { D < 7 }
        requires inside { place < D }
        requires square { IsSquare D columns.now }
        requires small { HasSmallEntries columns.now }
        requires narrow { IsNarrow (2 ^ 40) self.now }
        ensures over { variables result ≡ D }
        ensures within { IsWithin (2 ^ 100) result }
        ensures meets { (z : List ℤ) → length z ≡ D → Meets z result ↔ (value_at self.now (across D columns.now z) ≤ℤ counter (across D columns.now z) place) }
    {
        self.less_place(place).turned().row(columns)
    }

    /// The row that says that a number of the place itself is at most 2^59.
    pub(crate) fn box_below(place: usize) -> Row
        requires few { D < 7 }
        requires inside { place < D }
        ensures over { variables result ≡ D }
        ensures within { IsWithin (2 ^ 100) result }
        ensures meets { (z : List ℤ) → length z ≡ D → Meets z result ↔ (counter z place ≤ℤ pos (2 ^ 59)) }
        ensures alone { IsAlone place result }
        ensures side { coefficient result place <ℤ pos 0 }
    {
        let most: Side<D> = Side::number(FARTHEST);
        most.less_place(place).plain_row()
    }

    /// The row that says that a number of the place itself is at least -2^59.
    pub(crate) fn box_above(place: usize) -> Row
        requires few { D < 7 }
        requires inside { place < D }
        ensures over { variables result ≡ D }
        ensures within { IsWithin (2 ^ 100) result }
        ensures meets { (z : List ℤ) → length z ≡ D → Meets z result ↔ (neg_ℤ (pos (2 ^ 59)) ≤ℤ counter z place) }
        ensures alone { IsAlone place result }
        ensures side { pos 0 <ℤ coefficient result place }
    {
        let least: Side<D> = Side::number(-FARTHEST);
        least.less_place(place).turned().plain_row()
    }
}

/// Small numbers as those of a row.
fn small_numbers<const D: usize>(array: &[i64; D]) -> ArrayVec<i128, 16>
    requires { D < 7 }
    ensures { result.items ≡ array.now }
{
    let mut numbers = ArrayVec::new();
    for number in array {
        numbers.push(i128::from(*number));
    }
    numbers
}

/// The numbers as those of a row.
fn numbers<const D: usize>(array: &[i128; D]) -> ArrayVec<i128, 16>
    requires { D < 7 }
    ensures { result.items ≡ array.now }
{
    let mut numbers = ArrayVec::new();
    for number in array {
        numbers.push(*number);
    }
    numbers
}
