//! The search for the first legal schedule.

ghost use Rattle.std.specs.Prelude.{◌≡◌, ◌<◌, ◌≤◌, ◌-◌, IfOk, IfSome};
ghost use Rattle.dependence.specs.Legality.{Legal};
ghost use Rattle.legality.specs.Choices.{choice};
ghost use Rattle.seek.specs.ScheduleLists.{schedule_at, schedules};

use crate::schedules::{count, schedule_at};
use domain::Prediction;
use legality::{Judged, Refusal, judge};
use std::alloc::{AllocError, Global};
use std::marker::Model;

/// The least number of a list whose schedule is legal, from 1; nothing where none is. Each number before it, or else each
/// number of the list, has its refusal, in order.
#[derive(Debug, Drop)]
pub struct Sought {
    pub found: Option<u32>,
    pub refusals: Vec<Refusal>,
}

impl Model for Sought {
    ghost use Rattle.legality.specs.Choices as choices;

    ghost Value = { choices.Choice };

    ghost view = { λ s. record { refusals = s.refusals.items; legal = s.found } };
}

/// The first schedule of the list for nests of D loops that is legal for chunks of at most so many turns, with what refuses
/// those before it. D is from 1 to 6.
pub fn seek<const D: usize>(
    alloc: Global,
    pred: &Prediction<D>,
    length: i64,
) -> Result<Sought, AllocError>
    requires some { 1 ≤ D }
    requires few { D ≤ 6 }
    ensures value { IfOk result (λ sought. sought ≡ choice pred.now length (schedules D)) }
    ensures legal { IfOk result (λ sought. IfSome sought.legal (λ number. Legal pred.now (schedule_at D (number - 1)) length)) }
{
    let mut refusals = Vec::new(alloc);
    for place in 0..count(D as u8) {
        match judge(alloc, pred, &schedule_at(place), length)? {
            Judged::Refused(refusal) => refusals.push(refusal)?,
            Judged::Legal => {
                return Ok(Sought {
                    found: Some(place + 1),
                    refusals,
                });
            }
        }
    }
    Ok(Sought {
        found: None,
        refusals,
    })
}
