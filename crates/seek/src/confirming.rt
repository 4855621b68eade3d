//! One refusal, looked at again.

ghost use Rattle.std.specs.Prelude.{◌≡◌, ◌↔◌, ◌<◌, ◌≤◌, ◌-◌, true, IfOk};
ghost use Rattle.domain.specs.Tables.{IsTable};
ghost use Rattle.dependence.specs.Systems.{IsRef, IsSystemOf};
ghost use Rattle.dependence.specs.Legality.{judgement, trial};
ghost use Rattle.seek.specs.Confirmations.{CanBe, IsPlaced, IsRefusing, Refutes, violated_by};
ghost use Rattle.seek.specs.ScheduleLists as lists;

use crate::schedules::schedule_at;
use dependence::{Side, System, systems_of, variables, violation};
use domain::Prediction;
use fourier_motzkin::{Ruling, verdict};
use legality::Refusal;
use nest_lang::AccessRef;
use std::alloc::{AllocError, Global};
use transform::Schedule;

/// Whether a refusal is one of the schedule with this number, for chunks of at most so many turns: it names a system and a
/// violation of that schedule, and its verdict is the one on them and isn't Empty. That system alone is judged. The list
/// for nests of D loops has the number; D is from 1 to 6.
pub fn confirm<const D: usize>(
    alloc: Global,
    pred: &Prediction<D>,
    number: u32,
    refusal: &Refusal,
    length: i64,
) -> Result<bool, AllocError>
    requires some { 1 ≤ D }
    requires few { D ≤ 6 }
    requires from { 1 ≤ number }
    requires to { number ≤ lists.count D }
    ensures { IfOk result (λ confirmed. (confirmed ≡ true) ↔ Refutes pred.now length (lists.schedule_at D (number - 1)) refusal.now) }
{
    confirms(alloc, pred, &schedule_at(number - 1), refusal, length)
}

/// Whether a refusal is one of a schedule.
fn confirms<const D: usize>(
    alloc: Global,
    pred: &Prediction<D>,
    schedule: &Schedule<D>,
    refusal: &Refusal,
    length: i64,
) -> Result<bool, AllocError>
    requires few { D ≤ 6 }
    ensures { IfOk result (λ confirmed. (confirmed ≡ true) ↔ Refutes pred.now length schedule.now refusal.now) }
{
    if !is_placed(pred, schedule, refusal) {
        return Ok(false);
    }
    let systems = systems_of(alloc, pred, refusal.first, refusal.second, length)?;
    let Some(system) = systems.get(usize::from(refusal.case) - 1) else {
        return Ok(false);
    };
    has_verdict(alloc, pred, schedule, system, refusal)
}

/// Whether the verdict on a system, with the violation that a refusal names, is the refusal's and isn't Empty.
fn has_verdict<const D: usize>(
    alloc: Global,
    pred: &Prediction<D>,
    schedule: &Schedule<D>,
    system: &System,
    refusal: &Refusal,
) -> Result<bool, AllocError>
    requires few { D ≤ 6 }
    requires of { IsSystemOf pred.now system.now }
    requires from { 1 ≤ refusal.now.row }
    requires to { refusal.now.row ≤ D }
    ensures { IfOk result (λ has. (has ≡ true) ↔ IsRefusing refusal.now.verdict (judgement pred.now schedule.now (trial system.now (violated_by refusal.now)))) }
{
    let rows = violation(alloc, pred, system, schedule, refusal.row, refusal.side)?;
    let found = verdict(alloc, &rows, variables(pred, system))?;
    Ok(is_refusing(refusal.verdict, found))
}

/// Whether a verdict is the one found and isn't Empty.
fn is_refusing(verdict: Ruling, found: Ruling) -> bool
    ensures { (result ≡ true) ↔ IsRefusing verdict found }
{
    match verdict {
        Ruling::Empty => false,
        _ => found == verdict,
    }
}

/// Whether a refusal names accesses of a prediction, a place of the padded points, and a violation of a schedule.
fn is_placed<const D: usize>(
    pred: &Prediction<D>,
    schedule: &Schedule<D>,
    refusal: &Refusal,
) -> bool
    requires few { D ≤ 6 }
    ensures placed { (result ≡ true) ↔ IsPlaced D pred.now schedule.now refusal.now }
    ensures table { IsTable D pred.now }
{
    is_access(pred, refusal.first)
        && is_access(pred, refusal.second)
        && is_number(refusal.case, D)
        && is_number(refusal.row, D)
        && can_be(schedule, refusal.row, refusal.side)
}

/// Whether a number is from 1 to another.
fn is_number(number: u8, most: usize) -> bool
    ensures { (result ≡ true) ↔ ((1 ≤ number) × (number ≤ most)) }
{
    1 <= number && usize::from(number) <= most
}

/// Whether a prediction has an access.
fn is_access<const D: usize>(pred: &Prediction<D>, access: AccessRef) -> bool
    requires few { D ≤ 6 }
    ensures value { (result ≡ true) ↔ IsRef pred.now access }
    ensures table { IsTable D pred.now }
{
    access.block < pred.block_count() as u8
        && is_number(access.access, pred.block(access.block).accesses.len())
}

/// Whether a row of a schedule, from 1, can be violated so: below, or above where it is a parallel row of the band.
fn can_be<const D: usize>(schedule: &Schedule<D>, row: u8, side: Side) -> bool
    requires from { 1 ≤ row }
    requires to { row ≤ D }
    ensures { (result ≡ true) ↔ CanBe schedule.now row side }
{
    match side {
        Side::Below => true,
        Side::Above => {
            schedule.seq() < usize::from(row) && schedule.is_parallel(usize::from(row) - 1)
        }
    }
}
