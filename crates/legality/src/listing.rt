//! The systems that may be met.

ghost use Rattle.std.specs.Prelude.{◌≡◌, ◌<◌, ◌≤◌, ◌∷◌, ◌++◌, [], IfOk, OnOk};
ghost use Rattle.std.specs.List.{All, flat_map};
ghost use Rattle.dependence.specs.Systems.{IsRef, IsSystemOf, systems_of};
ghost use Rattle.legality.specs.Dependences.{dependences, met};

use dependence::{System, refs, systems_of, variables};
use domain::Prediction;
use fourier_motzkin::{Ruling, verdict};
use nest_lang::AccessRef;
use std::alloc::{AllocError, Global};

/// A system that may be met: its accesses, its case, and its verdict, which isn't Empty.
#[derive(Clone, Copy, Debug, PartialEq, Eq)]
pub struct Dependence {
    pub first: AccessRef,
    pub second: AccessRef,
    pub case: u8,
    pub verdict: Ruling,
}

/// The systems of a prediction, for chunks of at most so many turns, whose verdict isn't Empty, in their order. The case
/// after the last place is included. D is at most 6.
pub fn dependences<const D: usize>(
    alloc: Global,
    pred: &Prediction<D>,
    length: i64,
) -> Result<Vec<Dependence>, AllocError>
    requires { D < 7 }
    ensures { IfOk result (λ found. found.items ≡ dependences pred.now length) }
{
    let refs = refs(alloc, pred)?;
    let mut found = Vec::new(alloc);
    for first in &refs {
        list_from(alloc, &mut found, pred, &refs, *first, length)?;
    }
    Ok(found)
}

/// Puts those with a first access behind a list.
fn list_from<const D: usize>(
    alloc: Global,
    found: &mut Vec<Dependence>,
    pred: &Prediction<D>,
    refs: &[AccessRef],
    first: AccessRef,
    length: i64,
) -> Result<(), AllocError>
    requires few { D < 7 }
    requires refs { All (IsRef pred.now) refs.now }
    requires first { IsRef pred.now first }
    ensures { OnOk result (found.new.items ≡ found.old.items ++ met pred.now (flat_map (systems_of pred.now length first) refs.now)) }
{
    for second in refs {
        let systems = systems_of(alloc, pred, first, *second, length)?;
        list_met(alloc, found, pred, &systems)?;
    }
    Ok(())
}

/// Puts those of some systems behind a list.
fn list_met<const D: usize>(
    alloc: Global,
    found: &mut Vec<Dependence>,
    pred: &Prediction<D>,
    systems: &[System],
) -> Result<(), AllocError>
    requires few { D < 7 }
    requires of { All (IsSystemOf pred.now) systems.now }
    ensures { OnOk result (found.new.items ≡ found.old.items ++ met pred.now systems.now) }
{
    for system in systems {
        list_one(alloc, found, pred, system)?;
    }
    Ok(())
}

/// Puts a system behind a list, where its verdict isn't Empty.
fn list_one<const D: usize>(
    alloc: Global,
    found: &mut Vec<Dependence>,
    pred: &Prediction<D>,
    system: &System,
) -> Result<(), AllocError>
    requires few { D < 7 }
    requires of { IsSystemOf pred.now system.now }
    ensures { OnOk result (found.new.items ≡ found.old.items ++ met pred.now (system.now ∷ [])) }
{
    match verdict(alloc, &system.rows, variables(pred, system))? {
        Ruling::Empty => Ok(()),
        verdict => {
            found.push(Dependence {
                first: system.first,
                second: system.second,
                case: system.case,
                verdict,
            })?;
            Ok(())
        }
    }
}
