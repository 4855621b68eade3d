//! What is added to a system where a schedule violates it.

ghost use Rattle.std.specs.Prelude.{◌≡◌, ◌<◌, ◌≤◌, ◌^◌, ◌∷◌, ◌++◌, [], length, OnOk, IfOk};
ghost use Rattle.std.specs.List.{All};
ghost use Rattle.fourier_motzkin.specs.RowSets.{IsWithin};
ghost use Rattle.fourier_motzkin.specs.Elimination.{AllOver};
ghost use Rattle.transform.specs.Schedules.{line_at};
ghost use Rattle.dependence.specs.Comparisons.{row_for};
ghost use Rattle.affine.specs.Forms.{AllWithinSize};
ghost use Rattle.dependence.specs.Systems.{IsSystemOf};
ghost use Rattle.dependence.specs.Legality.{joint_variables, violation};
ghost use Rattle.dependence.specs.Terms.{IsShort, turned};
ghost use Rattle.dependence.specs.Sides.{is_above};

use crate::comparison::{Sum, Term};
use crate::pairs::System;
use crate::places::{counters, row_sum};
use crate::rows::{Over, RowList};
use affine::Row;
use arrayvec::ArrayVec;
use domain::Prediction;
use std::alloc::{AllocError, Global};
use transform::Schedule;

/// How a row of a schedule is violated, where an instance x comes before an instance y: the row is less at y than at x,
/// or greater.
#[derive(Clone, Copy, Debug, PartialEq, Eq)]
pub enum Side {
    Below,
    Above,
}

/// The rows of a system and those of a violation of a row of a schedule, from 1: x and y lie on one place in the leading
/// rows before it, and in this row y lies below x, or above it. They are over as many variables as `variables` says,
/// with numbers of at most 2^100 in size, as `fourier_motzkin::verdict` asks.
pub fn violation<const D: usize>(
    alloc: Global,
    pred: &Prediction<D>,
    system: &System,
    schedule: &Schedule<D>,
    row: u8,
    side: Side,
) -> Result<Vec<Row>, AllocError>
    requires few { D < 7 }
    requires of { IsSystemOf pred.now system.now }
    requires from { 1 ≤ row }
    requires to { row ≤ D }
    ensures value { IfOk result (λ rows. rows.items ≡ violation pred.now schedule.now system.now row (is_above side)) }
    ensures over { IfOk result (λ rows. AllOver (joint_variables pred.now system.now) rows.items) }
    ensures within { IfOk result (λ rows. All (IsWithin (2 ^ 100)) rows.items) }
{
    let a = pred.block(system.first.block);
    let b = pred.block(system.second.block);
    let over = Over {
        x: counters(pred, a),
        y: counters(pred, b),
    };
    let mut list = RowList {
        rows: copied(alloc, &system.rows)?,
    };
    let place = row as usize - 1;
    for leading in 0..place.min(schedule.seq()) {
        let line = matrix_row(schedule, leading);
        let x = row_sum(pred, a, line);
        let y = row_sum(pred, b, line);
        list.equal(over, &Term::AtX(x), &Term::AtY(y))?;
    }
    let line = matrix_row(schedule, place);
    let x = row_sum(pred, a, line);
    let y = row_sum(pred, b, line);
    list.turned(over, &x, &y, side)?;
    Ok(list.rows)
}

/// The rows again.
fn copied(alloc: Global, rows: &[Row]) -> Result<Vec<Row>, AllocError>
    ensures { IfOk result (λ copy. copy.items ≡ rows.now) }
{
    let mut copy = Vec::new(alloc);
    for row in rows {
        copy.push(Row {
            coef: same_numbers(row.coef.as_slice()),
            cst: row.cst,
        })?;
    }
    Ok(copy)
}

/// The numbers again.
fn same_numbers(numbers: &[i128]) -> ArrayVec<i128, 16>
    requires { length numbers.now ≤ 16 }
    ensures { result.items ≡ numbers.now }
{
    let mut copy = ArrayVec::new();
    for number in numbers {
        copy.push(*number);
    }
    copy
}

/// A row of a schedule's matrix, from 0.
fn matrix_row<const D: usize>(schedule: &Schedule<D>, row: usize) -> &[i64; D]
    requires { row < D }
    ensures value { result.now ≡ (line_at schedule.now row).row }
    ensures small { AllWithinSize (2 ^ 20) result.now }
    ensures long { length schedule.now.lines ≡ D }
{
    &schedule.matrix().rows[row]
}

impl RowList {
    /// Adds that y lies below x, or above it.
    fn turned<const D: usize>(
        &mut self,
        over: Over,
        x: &Sum<D>,
        y: &Sum<D>,
        side: Side,
    ) -> Result<(), AllocError>
        requires few { D < 7 }
        requires width { over.x ≤ D }
        requires height { over.y ≤ D }
        requires x { IsShort (2 ^ 98) x.now }
        requires y { IsShort (2 ^ 98) y.now }
        ensures { OnOk result (self.new.rows.items ≡ self.old.rows.items ++ row_for over.x over.y (turned (is_above side) x.now y.now) ∷ []) }
    {
        match side {
            Side::Below => self.at_most(over, &Term::AtY(y.shifted(1)), &Term::AtX(*x)),
            Side::Above => self.at_most(over, &Term::AtX(x.shifted(1)), &Term::AtY(*y)),
        }
    }
}
