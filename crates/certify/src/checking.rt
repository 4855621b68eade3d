//! The check of a certificate, which adds rows and eliminates nothing.

ghost use Rattle.std.specs.Prelude.{◌≡◌, ◌<◌, ◌≤◌, ◌↔◌, if◌then◌else◌, nat_le, length, slice_get, IfOk};
ghost use Rattle.std.specs.List.{All};
ghost use Rattle.domain.specs.Tables.{IsTable};
ghost use Rattle.dependence.specs.Systems.{IsSystemOf};
ghost use Rattle.dependence.specs.Legality.{trial, trials_of};
ghost use Rattle.dependence.specs.Legality as legality;
ghost use Rattle.certify.specs.Certificates.{HasProof, IsCertificateOf, IsRowOf};
ghost use Rattle.certify.specs.Checks.{due_fault, first_fault, flaw, is_of, same_access, same_side, schedule_check, surplus_fault};
ghost use Rattle.dependence.specs.Sides.{is_above};
ghost use Rattle.certify.specs.declared.certificates.ScheduleCheck.TheVariants as found;

use crate::certificates::{BlockFault, Certificate, Claimed, ScheduleCheck};
use crate::violations::{Violated, violations};
use dependence::{Side, System, systems, violation};
use domain::Prediction;
use nest_lang::AccessRef;
use refutation::{Checked, Why, check_rows};
use std::alloc::{AllocError, Global};
use transform::Schedule;

/// Whether a certificate shows that a schedule is legal for chunks of at most its length: whether its blocks are, in number
/// and in order, about the violations that legality asks about, and each refutes its rows. Otherwise the first block that
/// fails. D is at most 6. The factors of the proofs are those of a refutation, and each has fewer than 2^32 adds.
pub fn check_schedule<const D: usize>(
    alloc: Global,
    pred: &Prediction<D>,
    schedule: &Schedule<D>,
    certificate: &Certificate,
) -> Result<ScheduleCheck, AllocError>
    requires few { D < 7 }
    requires proofs { All HasProof certificate.now.blocks }
    ensures value { IfOk result (λ answer. answer ≡ schedule_check pred.now schedule.now certificate.now) }
    ensures yes { IfOk result (λ answer. (answer ≡ found.Yes) ↔ IsCertificateOf pred.now schedule.now certificate.now) }
{
    match first_fault(alloc, pred, schedule, certificate)? {
        None => Ok(ScheduleCheck::Yes),
        Some(fault) => Ok(ScheduleCheck::No(fault)),
    }
}

/// The first block that fails.
fn first_fault<const D: usize>(
    alloc: Global,
    pred: &Prediction<D>,
    schedule: &Schedule<D>,
    certificate: &Certificate,
) -> Result<Option<BlockFault>, AllocError>
    requires few { D < 7 }
    requires proofs { All HasProof certificate.now.blocks }
    ensures { IfOk result (λ fault. fault ≡ first_fault pred.now schedule.now certificate.now) }
{
    let depth = depth(pred);
    let systems = systems(alloc, pred, certificate.length)?;
    let violations = violations(alloc, schedule)?;
    let blocks = certificate.blocks.as_slice();
    let mut due = 0;
    for system in &systems {
        let fault = fault_in_system(alloc, pred, schedule, system, &violations, blocks, due)?;
        if fault.is_some() {
            return Ok(fault);
        }
        due += trial_count(depth, system, &violations);
    }
    Ok(surplus_fault(blocks, due))
}

/// The number of loops of a prediction.
fn depth<const D: usize>(pred: &Prediction<D>) -> usize
    ensures value { result ≡ D }
    ensures table { IsTable D pred.now }
{
    let _blocks = pred.block_count();
    D
}

/// How many trials a system has, at so many loops.
fn trial_count(depth: usize, system: &System, violations: &[Violated]) -> usize
    ensures { result ≡ (if nat_le system.now.case depth then length violations.now else 0) }
{
    if system.case as usize <= depth {
        violations.len()
    } else {
        0
    }
}

/// The fault of the block behind the last one that is due.
fn surplus_fault(blocks: &[Claimed], due: usize) -> Option<BlockFault>
    ensures { result ≡ surplus_fault blocks.now due }
{
    if due < blocks.len() {
        Some(BlockFault {
            block: due,
            why: Why::Order,
        })
    } else {
        None
    }
}

/// The first block that fails of those that are due for a system, whose numbers begin with `due`. In the case after the last
/// place none is, as every difference is 0 there.
fn fault_in_system<const D: usize>(
    alloc: Global,
    pred: &Prediction<D>,
    schedule: &Schedule<D>,
    system: &System,
    violations: &[Violated],
    blocks: &[Claimed],
    due: usize,
) -> Result<Option<BlockFault>, AllocError>
    requires table { IsTable D pred.now }
    requires of { IsSystemOf pred.now system.now }
    requires violations { violations.now ≡ legality.violations pred.now schedule.now }
    requires rows { All (IsRowOf D) violations.now }
    requires proofs { All HasProof blocks.now }
    requires due { due ≤ length blocks.now }
    ensures { IfOk result (λ fault. fault ≡ due_fault pred.now schedule.now blocks.now due (trials_of pred.now schedule.now system.now)) }
{
    if system.case as usize > D {
        return Ok(None);
    }
    for (place, violated) in violations.iter().enumerate() {
        let number = due + place;
        if let Some(why) = flaw(alloc, pred, schedule, system, violated, blocks, number)? {
            return Ok(Some(BlockFault { block: number, why }));
        }
    }
    Ok(None)
}

/// What is wrong with the block of a number, where one about a system and a violated row is due.
fn flaw<const D: usize>(
    alloc: Global,
    pred: &Prediction<D>,
    schedule: &Schedule<D>,
    system: &System,
    violated: &Violated,
    blocks: &[Claimed],
    number: usize,
) -> Result<Option<Why>, AllocError>
    requires few { D < 7 }
    requires of { IsSystemOf pred.now system.now }
    requires row { IsRowOf D violated.now }
    requires proofs { All HasProof blocks.now }
    ensures { IfOk result (λ why. why ≡ flaw pred.now schedule.now (trial system.now violated.now) (slice_get blocks.now number)) }
{
    let Some(block) = blocks.get(number) else {
        return Ok(Some(Why::Order));
    };
    if !is_of(block, system, violated) {
        return Ok(Some(Why::Order));
    }
    let rows = violation(alloc, pred, system, schedule, violated.row, violated.side)?;
    match check_rows(alloc, &rows, &block.proof)? {
        Checked::Yes => Ok(None),
        Checked::No(why) => Ok(Some(why)),
    }
}

/// Whether a block is about a system and a violated row.
fn is_of(block: &Claimed, system: &System, violated: &Violated) -> bool
    ensures { result ≡ is_of (trial system.now violated.now) block.now }
{
    same_access(block.first, system.first)
        && same_access(block.second, system.second)
        && block.case == system.case
        && block.row == violated.row
        && same_side(block.side, violated.side)
}

/// Whether both are one access.
fn same_access(a: AccessRef, b: AccessRef) -> bool
    ensures { result ≡ same_access a b }
{
    a.block == b.block && a.access == b.access
}

/// Whether both are one side.
fn same_side(a: Side, b: Side) -> bool
    ensures { result ≡ same_side (is_above a) (is_above b) }
{
    match a {
        Side::Below => matches!(b, Side::Below),
        Side::Above => matches!(b, Side::Above),
    }
}
