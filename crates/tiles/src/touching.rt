//! What the instances of a cell touch, and the stripes of their stores.

ghost use Rattle.std.specs.Prelude.{◌≡◌, ◌↔◌, ◌<◌, ◌≤◌, ◌++◌, ◌+ℤ◌, ℕ, pos, [], map, unsigned_abs, Contains, OnOk, IfOk};
ghost use Rattle.std.specs.List.{flat_map};
ghost use Rattle.std.specs.List.Sorted.{IsStrictlyIncreasing};
ghost use Rattle.domain.specs.Footprints.{Gains};
ghost use Rattle.plain_lemmas.specs.Lists.{Has};
ghost use Rattle.skeletons.specs.Runs.{Run as PlainRun};
ghost use Rattle.tiles.specs.declared.strip.Strip.{Strip as PlainStrip};
ghost use Rattle.tiles.specs.Strips.{IsListOfWords, IsStored, IsPlannedRun, IsSmallRun, IsWordOf, access_strips, load_strips, loads_of_run, offset_at, offset_count, store_strips, stores_of_run, strip_of};

use crate::strip::Strip;
use crate::stripe::Stripe;
use core_steps::Tile;
use domain::{AccessForm, Prediction};
use skeletons::Run;
use std::alloc::{AllocError, Global};

/// The words that the instances of a cell read, and the addresses that they write, as far as they were gathered: each list
/// in any order, an address as often as it was met.
#[derive(Drop)]
pub struct Touching {
    reads: Vec<u64>,
    writes: Vec<u64>,
}

/// A number so much greater.
fn raised(low: i64, place: u64) -> i64
    requires low { unsigned_abs low ≤ 64 }
    requires place { place ≤ 64 }
    ensures { result ≡ low +ℤ pos place }
{
    low + place as i64
}

/// How many offsets the tube of an access has.
fn width<const D: usize>(access: &AccessForm<D>) -> u64
    ensures { result ≡ offset_count access.now }
{
    (access.high - access.low) as u64 + 1
}

/// The offset of that number, from the least on.
fn offset<const D: usize>(access: &AccessForm<D>, place: u64) -> i64
    requires { place < offset_count access.now }
    ensures is { result ≡ offset_at access.now place }
    ensures near { unsigned_abs result ≤ 64 }
{
    raised(access.low, place)
}

/// Puts the words at which a run is expected to make an access behind a list.
fn push_words<const D: usize>(
    run: &Run<D>,
    access: &AccessForm<D>,
    words: u64,
    list: &mut Vec<u64>,
) -> Result<(), AllocError>
    requires few { D < 7 }
    requires small { IsSmallRun run.now }
    ensures { OnOk result (Gains (IsWordOf words (access_strips run.now access.now)) list.old.items list.new.items) }
{
    let width = width(access);
    let Some(form) = &access.line else {
        return Ok(());
    };
    for place in 0..width {
        let strip = Strip::of_run(run, form, offset(access, place));
        strip.push_words(words, list)?;
    }
    Ok(())
}

/// Puts the stripes of a run's stores by an access behind a list.
fn push_stripes<const D: usize>(
    run: &Run<D>,
    access: &AccessForm<D>,
    stripes: &mut Vec<Stripe>,
) -> Result<(), AllocError>
    requires few { D < 7 }
    requires small { IsSmallRun run.now }
    requires stored { (strip : PlainStrip) → Has (access_strips run.now access.now) strip → IsStored strip }
    ensures { OnOk result (map strip_of stripes.new.items ≡ map strip_of stripes.old.items ++ access_strips run.now access.now) }
{
    let width = width(access);
    let Some(form) = &access.line else {
        return Ok(());
    };
    for place in 0..width {
        let strip = Strip::of_run(run, form, offset(access, place));
        stripes.push(strip.stripe())?;
    }
    Ok(())
}

impl Touching {
    /// Nothing yet.
    fn new(alloc: Global) -> Touching
        ensures reads { result.reads.items ≡ [] }
        ensures writes { result.writes.items ≡ [] }
    {
        Touching {
            reads: Vec::new(alloc),
            writes: Vec::new(alloc),
        }
    }

    /// Gains what a run touches by an access; the stripes of stores go behind a list.
    fn gain_access<const D: usize>(
        &mut self,
        run: &Run<D>,
        access: &AccessForm<D>,
        words: u64,
        stripes: &mut Vec<Stripe>,
    ) -> Result<(), AllocError>
        requires few { D < 7 }
        requires small { IsSmallRun run.now }
        requires stored { (strip : PlainStrip) → Has (store_strips run.now access.now) strip → IsStored strip }
        ensures reads { OnOk result (Gains (IsWordOf words (load_strips run.now access.now)) self.old.reads.items self.new.reads.items) }
        ensures writes { OnOk result (Gains (IsWordOf words (store_strips run.now access.now)) self.old.writes.items self.new.writes.items) }
        ensures stripes { OnOk result (map strip_of stripes.new.items ≡ map strip_of stripes.old.items ++ store_strips run.now access.now) }
    {
        if access.stores {
            push_stripes(run, access, stripes)?;
            push_words(run, access, words, &mut self.writes)
        } else {
            push_words(run, access, words, &mut self.reads)
        }
    }

    /// Gains what a run touches.
    fn gain_run<const D: usize>(
        &mut self,
        pred: &Prediction<D>,
        run: &Run<D>,
        words: u64,
        stripes: &mut Vec<Stripe>,
    ) -> Result<(), AllocError>
        requires few { D < 7 }
        requires planned { IsPlannedRun pred.now run.now }
        ensures reads { OnOk result (Gains (IsWordOf words (loads_of_run pred.now run.now)) self.old.reads.items self.new.reads.items) }
        ensures writes { OnOk result (Gains (IsWordOf words (stores_of_run pred.now run.now)) self.old.writes.items self.new.writes.items) }
        ensures stripes { OnOk result (map strip_of stripes.new.items ≡ map strip_of stripes.old.items ++ stores_of_run pred.now run.now) }
    {
        let first = run.first;
        for access in &pred.block(first.block).accesses {
            self.gain_access(run, access, words, stripes)?;
        }
        Ok(())
    }
}

/// The addresses of a list in order, each once.
fn in_order(mut list: Vec<u64>) -> Vec<u64>
    ensures rising { IsStrictlyIncreasing result.items }
    ensures has { (address : ℕ) → Contains result.items address ↔ Contains list.items address }
{
    list.sort_unstable();
    list.dedup();
    list
}

/// The tile of a cell with these runs: the words that the runs read, and those that they write. The stripes of their stores
/// go behind a list.
pub fn tile_of_runs<const D: usize>(
    alloc: Global,
    pred: &Prediction<D>,
    runs: &[Run<D>],
    words: u64,
    stripes: &mut Vec<Stripe>,
) -> Result<Tile, AllocError>
    requires few { D < 7 }
    requires runs { (run : PlainRun) → Has runs.now run → IsPlannedRun pred.now run }
    ensures reads { IfOk result (λ tile. IsListOfWords words (flat_map (loads_of_run pred.now) runs.now) tile.reads) }
    ensures writes { IfOk result (λ tile. IsListOfWords words (flat_map (stores_of_run pred.now) runs.now) tile.writes) }
    ensures stripes { OnOk result (map strip_of stripes.new.items ≡ map strip_of stripes.old.items ++ flat_map (stores_of_run pred.now) runs.now) }
{
    let mut touching = Touching::new(alloc);
    for run in runs {
        touching.gain_run(pred, run, words, stripes)?;
    }
    Ok(Tile::new(in_order(touching.reads), in_order(touching.writes)))
}
