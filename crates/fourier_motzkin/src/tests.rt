//! Systems with known answers, over x and y.

ghost use Rattle.std.specs.Prelude.{◌≡◌, ◌^◌, IfOk};
ghost use Rattle.std.specs.List.{All};
ghost use Rattle.affine.specs.Rows.{variables};
ghost use Rattle.fourier_motzkin.specs.RowSets.{IsWithin};
ghost use Rattle.fourier_motzkin.specs.Elimination.{AllOver};

use super::*;
use affine::Row;
use arrayvec::ArrayVec;
use std::alloc::{AllocError, Global};
use std::test::Fail;

/// The row a x + b y + c >= 0.
fn row(a: i64, b: i64, c: i64) -> Row
    ensures over { variables result ≡ 2 }
    ensures within { IsWithin (2 ^ 100) result }
{
    let mut coef = ArrayVec::new();
    coef.push(i128::from(a));
    coef.push(i128::from(b));
    Row {
        coef,
        cst: i128::from(c),
    }
}

/// The rows a x + b y + c >= 0.
fn rows(alloc: Global, given: &[(i64, i64, i64)]) -> Result<Vec<Row>, AllocError>
    ensures over { IfOk result (λ rows. AllOver 2 rows.items) }
    ensures within { IfOk result (λ rows. All (IsWithin (2 ^ 100)) rows.items) }
{
    let mut rows = Vec::new(alloc);
    for (a, b, c) in given {
        rows.push(row(*a, *b, *c))?;
    }
    Ok(rows)
}

/// The verdict on the rows a x + b y + c >= 0.
fn verdict_on(alloc: Global, given: &[(i64, i64, i64)]) -> Result<Ruling, AllocError> {
    verdict(alloc, &rows(alloc, given)?, 2)
}

/// The range of x, and the range of y after the value of x.
fn ranges(
    alloc: Global,
    given: &[(i64, i64, i64)],
    x: i32,
) -> Result<(Ruling, Option<(i128, i128)>, Option<(i128, i128)>), AllocError> {
    let scan = bounds(alloc, &rows(alloc, given)?, 2)?;
    if scan.variables() == 2 {
        Ok((
            scan.verdict(),
            scan.range(0, &[]),
            scan.range(1, &[i64::from(x)]),
        ))
    } else {
        Ok((scan.verdict(), None, None))
    }
}

#[test]
fn rounding_refutes_parallel_rows(rt: HostRuntime) -> Result<(), Fail> {
    assert_eq!(rt;
        verdict_on(rt.alloc(), &[(3, 3, -4), (-1, -1, 1)])?,
        Ruling::Empty
    );
    Ok(())
}

#[test]
fn a_half_point_is_empty(rt: HostRuntime) -> Result<(), Fail> {
    assert_eq!(rt;
        verdict_on(rt.alloc(), &[(2, 0, -1), (-2, 0, 1)])?,
        Ruling::Empty
    );
    Ok(())
}

#[test]
fn a_number_above_the_limit_is_wide(rt: HostRuntime) -> Result<(), Fail> {
    assert_eq!(rt;
        verdict_on(rt.alloc(), &[(4_611_686_018_427_387_905, 1, 0)])?,
        Ruling::Wide
    );
    assert_eq!(rt;
        verdict_on(rt.alloc(), &[(4_611_686_018_427_387_904, 1, 0)])?,
        Ruling::Maybe
    );
    Ok(())
}

#[test]
fn a_false_row_is_found_before_a_wide_one(rt: HostRuntime) -> Result<(), Fail> {
    assert_eq!(rt;
        verdict_on(rt.alloc(), &[(4_611_686_018_427_387_905, 1, 0), (0, 0, -1)])?,
        Ruling::Empty
    );
    Ok(())
}

#[test]
fn a_half_plane_may_have_points(rt: HostRuntime) -> Result<(), Fail> {
    assert_eq!(rt; verdict_on(rt.alloc(), &[(1, 0, -1)])?, Ruling::Maybe);
    assert_eq!(rt; verdict_on(rt.alloc(), &[])?, Ruling::Maybe);
    Ok(())
}

#[test]
fn eliminating_y_bounds_x(rt: HostRuntime) -> Result<(), Fail> {
    let scan = bounds(rt.alloc(), &rows(rt.alloc(), &[(1, -1, 0), (0, 1, -2)])?, 2)?;
    assert_eq!(rt; scan.variables(), 2);
    assert_eq!(rt; scan.level(0), [row(1, 0, -2)].as_slice());
    match eliminate(rt.alloc(), scan.level(1), 1)? {
        Eliminated::Rows(left) => assert_eq!(rt; left.as_slice(), [row(1, 0, -2)].as_slice()),
        other => assert!(rt; false, "{other:?}"),
    }
    Ok(())
}

#[test]
fn a_range_lies_between_the_rows(rt: HostRuntime) -> Result<(), Fail> {
    let given = [(1, -1, 0), (0, 1, -2)];
    assert_eq!(rt;
        ranges(rt.alloc(), &given, 5)?,
        (Ruling::Maybe, None, Some((2, 5)))
    );
    assert_eq!(rt; ranges(rt.alloc(), &given, 1)?, (Ruling::Maybe, None, None));
    Ok(())
}

#[test]
fn a_triangle_has_one_point(rt: HostRuntime) -> Result<(), Fail> {
    let given = [(1, 0, -1), (0, 1, -1), (-1, -1, 2)];
    assert_eq!(rt;
        ranges(rt.alloc(), &given, 1)?,
        (Ruling::Maybe, Some((1, 1)), Some((1, 1)))
    );
    Ok(())
}

#[test]
fn a_half_open_strip_has_no_range(rt: HostRuntime) -> Result<(), Fail> {
    let given = [(1, 0, 0), (-1, 0, 3), (0, 1, 0)];
    assert_eq!(rt;
        ranges(rt.alloc(), &given, 2)?,
        (Ruling::Maybe, Some((0, 3)), None)
    );
    Ok(())
}

// The three rows hold of fractions alone, as of x = 0 and y = -7/12.
#[test]
fn a_triangle_between_the_points_is_maybe(rt: HostRuntime) -> Result<(), Fail> {
    let given = [(-3, -2, -1), (1, 0, 0), (1, 3, 2)];
    assert_eq!(rt;
        ranges(rt.alloc(), &given, 0)?,
        (Ruling::Maybe, Some((0, 0)), None)
    );
    Ok(())
}
