//! The places of a block's instances, one instance after another: for a block whose rows grow too wide.

ghost use Rattle.std.specs.Prelude.{◌≡◌, ◌<◌, ◌≤◌, ◌^◌, ◌↔◌, ℤ, pos, ◌+ℤ◌, ◌≤ℤ◌, int_lt, List, length, replicate, slice_set, IfOk, OnOk};
ghost use Rattle.orders.specs.Orders.{Ordered};
ghost use Rattle.plain_lemmas.specs.Lists.{Has};
ghost use Rattle.domain.specs.Instances.{Predicted, counter, instance, padded};
ghost use Rattle.domain.specs.Tables.{IsTable};
ghost use Rattle.level_walk.specs.Listings.{IsListing};
ghost use Rattle.level_walk.specs.Orders.{Precedes};
ghost use Rattle.transform.specs.Schedules.{IsSchedule, place};
ghost use Rattle.skeletons.specs.Cells.{IsLaunch};
ghost use Rattle.skeletons.specs.Frames.{IsPlaceOf};
ghost use Rattle.skeletons.specs.PlaceLists.{Notes, numbers};

use crate::block::Scope;
use crate::inverse::counters_of;
use domain::{Chunk, Instance, padded, successor};
use level_walk::cursor::{Point, copied};
use std::alloc::{AllocError, Global};
use transform::Schedule;

/// The most instances of a launched chunk.
const MOST_INSTANCES: u32 = 65_536;

/// The instance of the first block at the chunk's first turn, with inner counters 0.
fn opening<const D: usize>(chunk: Chunk) -> Instance<D>
    requires { 0 < D }
    ensures { result ≡ instance 0 (slice_set (replicate D (pos 0)) 0 chunk.first) }
{
    let mut at = [0; D];
    at[0] = chunk.first;
    Instance { block: 0, at }
}

/// Whether the turn of an instance is one of the chunk's.
fn holds<const D: usize>(chunk: Chunk, inst: &Instance<D>) -> bool
    requires some { 0 < D }
    requires from { pos 0 ≤ℤ chunk.first }
    requires to { chunk.first ≤ℤ pos (2 ^ 32) }
    requires turns { pos 1 ≤ℤ chunk.turns }
    requires most { chunk.turns ≤ℤ pos 1024 }
    ensures { result ≡ int_lt (counter inst.now.at 0) (chunk.first +ℤ chunk.turns) }
{
    inst.at[0] < chunk.first + chunk.turns
}

/// The place of a predicted instance.
fn place_point<const D: usize>(
    schedule: &Schedule<D>,
    scope: &Scope<'_, D>,
    inst: &Instance<D>,
) -> Point
    requires few { D < 7 }
    requires table { IsTable D scope.now.pred.now }
    requires schedule { IsSchedule D schedule.now }
    requires launch { IsLaunch scope.now.pred.now scope.now.chunk }
    requires predicted { Predicted scope.now.pred.now scope.now.chunk inst.now }
    ensures { result.items ≡ place schedule.now (padded scope.now.pred.now inst.now) }
{
    let point = padded(scope.pred, inst);
    let place = counters_of(&schedule.place_of(&point), D);
    copied(&place)
}

/// Puts the place of an instance behind others, where it is one of the block.
fn note<const D: usize>(
    schedule: &Schedule<D>,
    scope: &Scope<'_, D>,
    rank: usize,
    inst: &Instance<D>,
    places: &mut Vec<Point>,
) -> Result<(), AllocError>
    requires few { D < 7 }
    requires table { IsTable D scope.now.pred.now }
    requires schedule { IsSchedule D schedule.now }
    requires launch { IsLaunch scope.now.pred.now scope.now.chunk }
    requires predicted { Predicted scope.now.pred.now scope.now.chunk inst.now }
    ensures { OnOk result (Notes scope.now.pred.now schedule.now rank inst.now places.old.items places.new.items) }
{
    if inst.block as usize == rank {
        places.push(place_point(schedule, scope, inst))?;
    }
    Ok(())
}

/// The places of the block's instances, in original order.
fn walked<const D: usize>(
    alloc: Global,
    schedule: &Schedule<D>,
    scope: &Scope<'_, D>,
    rank: usize,
) -> Result<Vec<Point>, AllocError>
    requires some { 1 ≤ D }
    requires few { D < 7 }
    requires table { IsTable D scope.now.pred.now }
    requires schedule { IsSchedule D schedule.now }
    requires launch { IsLaunch scope.now.pred.now scope.now.chunk }
    ensures { IfOk result (λ points. (z : List ℤ) → Has (numbers points.items) z ↔ IsPlaceOf (record { table = scope.now.pred.now; schedule = schedule.now; chunk = scope.now.chunk }) rank z) }
{
    let mut inst = opening(scope.chunk);
    let mut places = Vec::new(alloc);
    for _seen in 0..MOST_INSTANCES {
        if !holds(scope.chunk, &inst) {
            break;
        }
        note(schedule, scope, rank, &inst, &mut places)?;
        inst = successor(scope.pred, &inst);
    }
    Ok(places)
}

/// The points in order, each once.
fn in_order(mut places: Vec<Point>) -> Vec<Point>
    ensures ordered { Ordered Precedes (numbers result.items) }
    ensures has { (z : List ℤ) → Has (numbers result.items) z ↔ Has (numbers places.items) z }
{
    places.sort_unstable();
    places.dedup();
    places
}

/// The places of the block's instances in lexicographic order.
pub(crate) fn listed_places<const D: usize>(
    alloc: Global,
    schedule: &Schedule<D>,
    scope: &Scope<'_, D>,
    rank: usize,
) -> Result<Vec<Point>, AllocError>
    requires some { 1 ≤ D }
    requires few { D < 7 }
    requires table { IsTable D scope.now.pred.now }
    requires schedule { IsSchedule D schedule.now }
    requires launch { IsLaunch scope.now.pred.now scope.now.chunk }
    ensures is { IfOk result (λ points. IsListing D points.items) }
    ensures finds { IfOk result (λ points. (z : List ℤ) → Has (numbers points.items) z ↔ IsPlaceOf (record { table = scope.now.pred.now; schedule = schedule.now; chunk = scope.now.chunk }) rank z) }
{
    Ok(in_order(walked(alloc, schedule, scope, rank)?))
}
