//! Proofs with known answers, over x and y: of the rows 3x + 3y - 4 >= 0 and -x - y + 1 >= 0.

ghost use Rattle.std.specs.Prelude.{◌≡◌, ◌<◌, ◌^◌, length, IfOk};
ghost use Rattle.std.specs.List.{All};
ghost use Rattle.fourier_motzkin.specs.RowSets.{IsWithin};
ghost use Rattle.refutation.specs.Refutations.{HasFactors};

use super::*;
use affine::Row;
use arrayvec::ArrayVec;
use std::alloc::{AllocError, Global};
use std::test::Fail;

/// The row a x + b y + c >= 0.
fn row(a: i64, b: i64, c: i64) -> Row
    ensures { IsWithin (2 ^ 126) result }
{
    let mut coef = ArrayVec::new();
    coef.push(i128::from(a));
    coef.push(i128::from(b));
    Row {
        coef,
        cst: i128::from(c),
    }
}

/// The two rows.
fn rows(alloc: Global) -> Result<Vec<Row>, AllocError>
    ensures { IfOk result (λ rows. All (IsWithin (2 ^ 126)) rows.items) }
{
    let mut rows = Vec::new(alloc);
    rows.push(row(3, 3, -4))?;
    rows.push(row(-1, -1, 1))?;
    Ok(rows)
}

/// The proof whose one add is row 0 plus a row.
fn adding(alloc: Global, right: u32) -> Result<Refutation, AllocError>
    ensures factors { IfOk result (λ proof. All HasFactors proof.adds) }
    ensures few { IfOk result (λ proof. length proof.adds < 2 ^ 32) }
{
    let mut adds = Vec::new(alloc);
    adds.push(Add {
        p: 1,
        left: 0,
        q: 1,
        right,
    })?;
    Ok(Refutation { adds, last: 2 })
}

#[test]
fn one_sum_refutes_parallel_rows(rt: HostRuntime) -> Result<(), Fail> {
    let rows = rows(rt.alloc())?;
    let proof = adding(rt.alloc(), 1)?;
    assert_eq!(rt; check_rows(rt.alloc(), &rows, &proof)?, Checked::Yes);
    Ok(())
}

#[test]
fn an_add_of_a_missing_row_has_no_row(rt: HostRuntime) -> Result<(), Fail> {
    let rows = rows(rt.alloc())?;
    let proof = adding(rt.alloc(), 2)?;
    assert_eq!(rt;
        check_rows(rt.alloc(), &rows, &proof)?,
        Checked::No(Why::Index(0))
    );
    Ok(())
}

#[test]
fn a_proof_without_adds_is_open(rt: HostRuntime) -> Result<(), Fail> {
    let rows = rows(rt.alloc())?;
    let proof = Refutation {
        adds: Vec::new(rt.alloc()),
        last: 0,
    };
    assert_eq!(rt;
        check_rows(rt.alloc(), &rows, &proof)?,
        Checked::No(Why::Open)
    );
    Ok(())
}
