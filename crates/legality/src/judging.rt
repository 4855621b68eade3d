//! The judgement of a schedule.

ghost use Rattle.std.specs.Prelude.{◌≡◌, ◌<◌, ◌≤◌, ◌↔◌, ◌∷◌, [], map, IfOk};
ghost use Rattle.std.specs.List.{All, flat_map};
ghost use Rattle.domain.specs.Tables.{IsTable};
ghost use Rattle.dependence.specs.Systems.{IsRef, IsSystemOf, systems_of};
ghost use Rattle.dependence.specs.Sides.{is_above};
ghost use Rattle.dependence.specs.Legality.{Legal, trial, trials_of, violations_of};
ghost use Rattle.legality.specs.Judgements.{first_refusal, judged, refused};
ghost use Rattle.legality.specs.Judgements.{climbs};
ghost use Rattle.legality.specs.declared.refusals.Judged.TheVariants as answer;

use crate::refusals::{Judged, Refusal};
use dependence::{Side, System, refs, systems_of, variables, violation};
use domain::Prediction;
use fourier_motzkin::{Ruling, verdict};
use nest_lang::AccessRef;
use std::alloc::{AllocError, Global};
use transform::Schedule;

/// Whether a schedule is legal for chunks of at most so many turns, or else the first trial whose verdict isn't Empty, in
/// the order of the systems, the rows, and below before above. D is at most 6.
pub fn judge<const D: usize>(
    alloc: Global,
    pred: &Prediction<D>,
    schedule: &Schedule<D>,
    length: i64,
) -> Result<Judged, AllocError>
    requires { D < 7 }
    ensures value { IfOk result (λ answered. answered ≡ judged pred.now schedule.now length) }
    ensures legal { IfOk result (λ answered. (answered ≡ answer.Legal) ↔ Legal pred.now schedule.now length) }
{
    match refused(alloc, pred, schedule, length)? {
        None => Ok(Judged::Legal),
        Some(refusal) => Ok(Judged::Refused(refusal)),
    }
}

/// The first refusal of a schedule; None where it is legal.
pub(crate) fn refused<const D: usize>(
    alloc: Global,
    pred: &Prediction<D>,
    schedule: &Schedule<D>,
    length: i64,
) -> Result<Option<Refusal>, AllocError>
    requires { D < 7 }
    ensures { IfOk result (λ found. found ≡ refused pred.now length schedule.now) }
{
    let refs = refs(alloc, pred)?;
    for first in &refs {
        let found = refused_from(alloc, pred, schedule, &refs, *first, length)?;
        if found.is_some() {
            return Ok(found);
        }
    }
    Ok(None)
}

/// The first refusal by a system with a first access.
fn refused_from<const D: usize>(
    alloc: Global,
    pred: &Prediction<D>,
    schedule: &Schedule<D>,
    refs: &[AccessRef],
    first: AccessRef,
    length: i64,
) -> Result<Option<Refusal>, AllocError>
    requires table { IsTable D pred.now }
    requires refs { All (IsRef pred.now) refs.now }
    requires first { IsRef pred.now first }
    ensures { IfOk result (λ found. found ≡ first_refusal pred.now schedule.now (flat_map (trials_of pred.now schedule.now) (flat_map (systems_of pred.now length first) refs.now))) }
{
    for second in refs {
        let found = refused_by_pair(alloc, pred, schedule, first, *second, length)?;
        if found.is_some() {
            return Ok(found);
        }
    }
    Ok(None)
}

/// The first refusal by a system of two accesses.
fn refused_by_pair<const D: usize>(
    alloc: Global,
    pred: &Prediction<D>,
    schedule: &Schedule<D>,
    first: AccessRef,
    second: AccessRef,
    length: i64,
) -> Result<Option<Refusal>, AllocError>
    requires table { IsTable D pred.now }
    requires first { IsRef pred.now first }
    requires second { IsRef pred.now second }
    ensures { IfOk result (λ found. found ≡ first_refusal pred.now schedule.now (flat_map (trials_of pred.now schedule.now) (systems_of pred.now length first second))) }
{
    let systems = systems_of(alloc, pred, first, second, length)?;
    for system in &systems {
        let found = refused_by_system(alloc, pred, schedule, system)?;
        if found.is_some() {
            return Ok(found);
        }
    }
    Ok(None)
}

/// The first refusal by a system. In the case after the last place there is none, as every difference is 0 there.
fn refused_by_system<const D: usize>(
    alloc: Global,
    pred: &Prediction<D>,
    schedule: &Schedule<D>,
    system: &System,
) -> Result<Option<Refusal>, AllocError>
    requires table { IsTable D pred.now }
    requires of { IsSystemOf pred.now system.now }
    ensures { IfOk result (λ found. found ≡ first_refusal pred.now schedule.now (trials_of pred.now schedule.now system.now)) }
{
    if system.case as usize > D {
        return Ok(None);
    }
    for row in 1..D as u8 + 1 {
        let found = refused_by_row(alloc, pred, schedule, system, row)?;
        if found.is_some() {
            return Ok(found);
        }
    }
    Ok(None)
}

/// The first refusal by a row of a schedule in a system: where the row falls, and where it is a parallel row of the band
/// also where it climbs.
fn refused_by_row<const D: usize>(
    alloc: Global,
    pred: &Prediction<D>,
    schedule: &Schedule<D>,
    system: &System,
    row: u8,
) -> Result<Option<Refusal>, AllocError>
    requires table { IsTable D pred.now }
    requires of { IsSystemOf pred.now system.now }
    requires from { 1 ≤ row }
    requires to { row ≤ D }
    ensures { IfOk result (λ found. found ≡ first_refusal pred.now schedule.now (map (trial system.now) (violations_of schedule.now row))) }
{
    let below = refused_by_side(alloc, pred, schedule, system, row, Side::Below)?;
    if below.is_some() {
        return Ok(below);
    }
    if !is_parallel_in_band(schedule, row) {
        return Ok(None);
    }
    refused_by_side(alloc, pred, schedule, system, row, Side::Above)
}

/// Whether a row, from 1, is a parallel row of the band.
fn is_parallel_in_band<const D: usize>(schedule: &Schedule<D>, row: u8) -> bool
    requires from { 1 ≤ row }
    requires to { row ≤ D }
    ensures { result ≡ climbs schedule.now row }
{
    schedule.seq() < row as usize && schedule.is_parallel(row as usize - 1)
}

/// The refusal by a trial.
fn refused_by_side<const D: usize>(
    alloc: Global,
    pred: &Prediction<D>,
    schedule: &Schedule<D>,
    system: &System,
    row: u8,
    side: Side,
) -> Result<Option<Refusal>, AllocError>
    requires few { D < 7 }
    requires of { IsSystemOf pred.now system.now }
    requires from { 1 ≤ row }
    requires to { row ≤ D }
    ensures { IfOk result (λ found. found ≡ first_refusal pred.now schedule.now (trial system.now (record { row = row; above = is_above side }) ∷ [])) }
{
    let rows = violation(alloc, pred, system, schedule, row, side)?;
    match verdict(alloc, &rows, variables(pred, system))? {
        Ruling::Empty => Ok(None),
        verdict => Ok(Some(Refusal {
            first: system.first,
            second: system.second,
            case: system.case,
            row,
            side,
            verdict,
        })),
    }
}
