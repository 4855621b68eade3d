//! The first legal one of some schedules.

ghost use Rattle.std.specs.Prelude.{◌≡◌, ◌<◌, ◌-◌, ◌^◌, length, slice_get, IfOk, IfSome};
ghost use Rattle.dependence.specs.Legality.{Legal};
ghost use Rattle.legality.specs.Choices.{choice};

use crate::judging::refused;
use crate::refusals::Refusal;
use domain::Prediction;
use std::alloc::{AllocError, Global};
use std::marker::Model;
use transform::Schedule;

/// The refusals of the schedules before the first legal one, in order, and the number of that one, from 1. Where none is
/// legal each has its refusal.
#[derive(Debug, Drop)]
pub struct Choice {
    pub refusals: Vec<Refusal>,
    pub legal: Option<u32>,
}

impl Model for Choice {
    ghost use Rattle.legality.specs.Choices as choices;

    ghost Value = { choices.Choice };

    ghost view = { λ c. record { refusals = c.refusals.items; legal = c.legal } };
}

/// The first legal one of some schedules, fewer than 2^32, for chunks of at most so many turns, with the refusals of
/// those before it. D is at most 6.
pub fn choose<const D: usize>(
    alloc: Global,
    pred: &Prediction<D>,
    schedules: &[Schedule<D>],
    turns: i64,
) -> Result<Choice, AllocError>
    requires few { D < 7 }
    requires count { length schedules.now < 2 ^ 32 }
    ensures value { IfOk result (λ chosen. chosen ≡ choice pred.now turns schedules.now) }
    ensures legal { IfOk result (λ chosen. IfSome chosen.legal (λ number. IfSome (slice_get schedules.now (number - 1)) (λ s. Legal pred.now s turns))) }
{
    let mut refusals = Vec::new(alloc);
    for (place, schedule) in schedules.iter().enumerate() {
        match refused(alloc, pred, schedule, turns)? {
            Some(refusal) => refusals.push(refusal)?,
            None => {
                return Ok(Choice {
                    refusals,
                    legal: Some(place as u32 + 1),
                });
            }
        }
    }
    Ok(Choice {
        refusals,
        legal: None,
    })
}
