//! Worked examples: the expected numbers are computed by hand.

ghost use Rattle.std.specs.Prelude.{◌≤◌, ◌^◌, length, unsigned_abs};
ghost use Rattle.affine.specs.Forms.{AllWithinSize};

use crate::{Form, Matrix, Row, Unimodular};
use arrayvec::ArrayVec;
use std::alloc::AllocError;

/// The row of these numbers.
fn row(coef: &[i64], cst: i64) -> Row
    requires { length coef.now ≤ 16 }
    ensures coef { AllWithinSize (2 ^ 126) result.coef.items }
    ensures cst { unsigned_abs result.cst ≤ 2 ^ 126 }
{
    let mut numbers = ArrayVec::new();
    for number in coef {
        numbers.push(i128::from(*number));
    }
    Row {
        coef: numbers,
        cst: i128::from(cst),
    }
}

#[test]
fn constant_is_rounded_down(rt: HostRuntime) {
    assert_eq!(rt; row(&[2], -1).normal(), row(&[1], -1));
    assert_eq!(rt; row(&[-2], 1).normal(), row(&[-1], 0));
    assert_eq!(rt; row(&[3, 3], -4).normal(), row(&[1, 1], -2));
    assert_eq!(rt; row(&[6, -4], 7).normal(), row(&[3, -2], 3));
}

#[test]
fn coprime_row_stays(rt: HostRuntime) {
    assert_eq!(rt;
        row(&[4_611_686_018_427_387_905, 1], 5).normal(),
        row(&[4_611_686_018_427_387_905, 1], 5)
    );
    assert_eq!(rt; row(&[0, 9, 10], -7).normal(), row(&[0, 9, 10], -7));
}

#[test]
fn row_without_variables_stays(rt: HostRuntime) {
    assert_eq!(rt; row(&[0, 0], -5).normal(), row(&[0, 0], -5));
    assert_eq!(rt; row(&[], 3).normal(), row(&[], 3));
}

#[test]
fn row_is_copied(rt: HostRuntime) {
    let copied: Result<Row, AllocError> = row(&[1, 2], 3).clone();
    assert_eq!(rt; copied, Ok(row(&[1, 2], 3)));
}

#[test]
fn form_has_small_coefficients(rt: HostRuntime) {
    assert!(rt; Form::new([1_099_511_627_776, -1_099_511_627_776], i64::MIN).is_some());
    assert!(rt; Form::new([1_099_511_627_777, 0], 0).is_none());
    assert!(rt; Form::new([0, -1_099_511_627_777], 0).is_none());
    assert!(rt; Form::new([i64::MIN], 0).is_none());
}

#[test]
fn form_has_exact_values(rt: HostRuntime) {
    let Some(form) = Form::new([20, 1], 1) else {
        panic!(rt; "small coefficients");
    };
    assert_eq!(rt; form.at(&[4, 7]), 88);
    let Some(largest) = Form::new([1_099_511_627_776; 6], i64::MIN) else {
        panic!(rt; "small coefficients");
    };
    assert_eq!(rt;
        largest.at(&[i64::MIN; 6]),
        -60_847_228_810_964_234_643_878_608_633_856
    );
}

#[test]
fn matrix_moves(rt: HostRuntime) {
    let mut matrix: Matrix<3> = Matrix::identity();
    assert_eq!(rt; matrix.map(&[5, 7, 11]), [5, 7, 11]);
    matrix.skew(1, 0, -2);
    assert_eq!(rt; matrix.map(&[5, 7, 11]), [5, -3, 11]);
    matrix.swap(1, 2);
    assert_eq!(rt; matrix.map(&[5, 7, 11]), [5, 11, -3]);
    assert_eq!(rt; matrix.rows, [[1, 0, 0], [0, 0, 1], [-2, 1, 0]]);
}

#[test]
fn inverse_moves_along(rt: HostRuntime) {
    let mut made: Unimodular<2> = Unimodular::identity();
    made.skew(1, 0, 2);
    assert_eq!(rt; made.matrix().rows, [[1, 0], [2, 1]]);
    assert_eq!(rt; made.columns().rows, [[1, -2], [0, 1]]);
    made.swap(0, 1);
    assert_eq!(rt; made.matrix().rows, [[2, 1], [1, 0]]);
    assert_eq!(rt; made.columns().rows, [[0, 1], [1, -2]]);
}
