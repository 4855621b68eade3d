//! The systems of a prediction, for chunks of at most so many turns.

ghost use Rattle.std.specs.Prelude.{◌≡◌, ◌<◌, ◌≤◌, ◌+◌, ◌^◌, [], ◌++◌, if◌then◌else◌, nat_lt, length, IfOk, OnOk};
ghost use Rattle.std.specs.List.{All, flat_map};
ghost use Rattle.fourier_motzkin.specs.RowSets.{IsWithin};
ghost use Rattle.fourier_motzkin.specs.Elimination.{AllOver};
ghost use Rattle.domain.specs.Tables.{IsTable, depth};
ghost use Rattle.dependence.specs.Systems.{IsRef, IsSystemOf, pairs, referred, refs, refs_of, system, systems, systems_of};
ghost use Rattle.dependence.specs.Legality.{joint_variables};

use crate::comparison::Term;
use crate::places::counters;
use crate::rows::{Member, Over, RowList};
use affine::Row;
use domain::{AccessForm, Prediction};
use nest_lang::AccessRef;
use std::alloc::{AllocError, Global};
use std::marker::Model;

/// Rows that say of two accesses and a case that an instance x of the first one's block comes before an instance y of
/// the second one's in a chunk, and that the intervals about their addresses meet. The case is the first place, from 1,
/// at which the padded points differ; the one after the last place says that they are equal. The variables are the
/// chunk's first turn, the counters of x and the counters of y. Numbers are at most 2^100 in size.
#[derive(Debug, Drop)]
pub struct System {
    pub first: AccessRef,
    pub second: AccessRef,
    pub case: u8,
    pub rows: Vec<Row>,
}

impl Model for System {
    ghost use Rattle.std.specs.Prelude.{◌^◌};
    ghost use Rattle.std.specs.List.{All};
    ghost use Rattle.fourier_motzkin.specs.RowSets.{IsWithin};
    ghost use Rattle.dependence.specs.Systems as systems;

    ghost Value = { systems.System };

    ghost view = { λ s. record { first = s.first; second = s.second; case = s.case; rows = s.rows.items } };

    ghost invariant = { λ s. All (IsWithin (2 ^ 100)) s.rows.items };
}

/// The accesses of a prediction, in the order of the text.
pub fn refs<const D: usize>(
    alloc: Global,
    pred: &Prediction<D>,
) -> Result<Vec<AccessRef>, AllocError>
    requires few { D < 7 }
    ensures value { IfOk result (λ found. found.items ≡ refs pred.now) }
    ensures are { IfOk result (λ found. All (IsRef pred.now) found.items) }
    ensures table { IsTable D pred.now }
{
    let mut found = Vec::new(alloc);
    for rank in 0..pred.block_count() {
        push_refs(&mut found, pred, rank as u8)?;
    }
    Ok(found)
}

/// Puts the accesses of a block behind a list.
fn push_refs<const D: usize>(
    found: &mut Vec<AccessRef>,
    pred: &Prediction<D>,
    rank: u8,
) -> Result<(), AllocError>
    requires few { D < 7 }
    requires rank { rank < length pred.now.blocks }
    ensures { OnOk result (found.new.items ≡ found.old.items ++ refs_of pred.now rank) }
{
    for number in 0..pred.block(rank).accesses.len() {
        found.push(AccessRef {
            block: rank,
            access: number as u8 + 1,
        })?;
    }
    Ok(())
}

/// The access that is referred to.
fn referred<'a, const D: usize>(pred: &'a Prediction<D>, access: AccessRef) -> &'a AccessForm<D>
    requires few { D < 7 }
    requires is { IsRef pred.now access }
    ensures value { result.now ≡ referred pred.now access }
    ensures deep { depth pred.now ≡ D }
{
    let block = pred.block(access.block);
    &block.accesses[access.access as usize - 1]
}

/// Whether both accesses have forms, and one is a store.
fn are_pair<const D: usize>(a: &AccessForm<D>, b: &AccessForm<D>) -> bool
    ensures { result ≡ pairs a.now b.now }
{
    (a.stores || b.stores) && a.line.is_some() && b.line.is_some()
}

/// How many cases two accesses have: each place, and after the last one the case of equal places, where the first block
/// has the smaller rank.
fn case_count<const D: usize>(first: AccessRef, second: AccessRef) -> u8
    requires { D < 7 }
    ensures { result ≡ D + (if nat_lt first.block second.block then 1 else 0) }
{
    let places = D as u8;
    if first.block < second.block {
        places + 1
    } else {
        places
    }
}

/// The system of two accesses and a case.
fn system_for<const D: usize>(
    alloc: Global,
    pred: &Prediction<D>,
    first: AccessRef,
    second: AccessRef,
    case: u8,
    length: i64,
) -> Result<System, AllocError>
    requires few { D < 7 }
    requires first { IsRef pred.now first }
    requires second { IsRef pred.now second }
    requires from { 1 ≤ case }
    requires to { case ≤ D + 1 }
    ensures { IfOk result (λ found. found ≡ system pred.now length first second case) }
{
    let a = pred.block(first.block);
    let b = pred.block(second.block);
    let over = Over {
        x: counters(pred, a),
        y: counters(pred, b),
    };
    let places = case as usize - 1;
    let mut list = RowList {
        rows: Vec::new(alloc),
    };
    list.at_most(over, &Term::<D>::Number(0), &Term::Turn(0))?;
    list.first_counter(pred, over, Member::X, length)?;
    list.first_counter(pred, over, Member::Y, length)?;
    list.inner_counters(pred, over, Member::X, a)?;
    list.inner_counters(pred, over, Member::Y, b)?;
    list.meeting(over, referred(pred, first), referred(pred, second))?;
    list.equal_places(pred, over, a, b, places)?;
    list.rising_place(pred, over, a, b, places)?;
    Ok(System {
        first,
        second,
        case,
        rows: list.rows,
    })
}

/// The systems of two accesses, in the order of their cases, for chunks of at most so many turns. There are none where
/// both are loads, or where one has no form.
pub fn systems_of<const D: usize>(
    alloc: Global,
    pred: &Prediction<D>,
    first: AccessRef,
    second: AccessRef,
    length: i64,
) -> Result<Vec<System>, AllocError>
    requires few { D < 7 }
    requires first { IsRef pred.now first }
    requires second { IsRef pred.now second }
    ensures value { IfOk result (λ found. found.items ≡ systems_of pred.now length first second) }
    ensures are { IfOk result (λ found. All (IsSystemOf pred.now) found.items) }
{
    let mut found = Vec::new(alloc);
    if !are_pair(referred(pred, first), referred(pred, second)) {
        return Ok(found);
    }
    for case in 1..case_count::<D>(first, second) + 1 {
        found.push(system_for(alloc, pred, first, second, case, length)?)?;
    }
    Ok(found)
}

/// The systems of a prediction for chunks of at most so many turns, in the order of the first access, the second access
/// and the case. An access and itself are a pair where it stores.
pub fn systems<const D: usize>(
    alloc: Global,
    pred: &Prediction<D>,
    length: i64,
) -> Result<Vec<System>, AllocError>
    requires few { D < 7 }
    ensures { IfOk result (λ found. found.items ≡ systems pred.now length) }
{
    let refs = refs(alloc, pred)?;
    let mut found = Vec::new(alloc);
    for first in &refs {
        push_systems(alloc, &mut found, pred, &refs, *first, length)?;
    }
    Ok(found)
}

/// Puts the systems with a first access behind a list.
fn push_systems<const D: usize>(
    alloc: Global,
    found: &mut Vec<System>,
    pred: &Prediction<D>,
    refs: &[AccessRef],
    first: AccessRef,
    length: i64,
) -> Result<(), AllocError>
    requires few { D < 7 }
    requires first { IsRef pred.now first }
    requires refs { All (IsRef pred.now) refs.now }
    ensures { OnOk result (found.new.items ≡ found.old.items ++ flat_map (systems_of pred.now length first) refs.now) }
{
    for second in refs {
        let mut more = systems_of(alloc, pred, first, *second, length)?;
        found.append(&mut more)?;
    }
    Ok(())
}

/// The number of variables of a system's rows, at most 13.
pub fn variables<const D: usize>(pred: &Prediction<D>, system: &System) -> usize
    requires few { D < 7 }
    requires of { IsSystemOf pred.now system.now }
    ensures value { result ≡ joint_variables pred.now system.now }
    ensures most { result ≤ 13 }
{
    let first = pred.block(system.first.block);
    let second = pred.block(system.second.block);
    1 + counters(pred, first) + counters(pred, second)
}
