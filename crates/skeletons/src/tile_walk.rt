//! The walk over the cells of a chunk.

ghost use Rattle.std.specs.Prelude.{◌≡◌, ◌<◌, ◌≤◌, ◌^◌, ◌∷◌, List, [], length, IsNone, IfSome, slice_index_or, FitsSigned};
ghost use Rattle.skeletons.specs.Cells.{AreListsOf};
ghost use Rattle.skeletons.specs.Frames.{IsFrame, lists_of};
ghost use Rattle.skeletons.specs.Walks.{WalkStands, rest_in};

use crate::cell::Cell;
use crate::cell_box::cell_box;
use crate::frame::{Frame, instance};
use crate::skeleton::Skeleton;
use crate::walk::Walk;
use domain::Instance;
use level_walk::states::{State, ended};
use level_walk::together::{next, start};
use std::marker::Model;

/// The walk, as its fields.
#[derive(Drop)]
struct Places<'a, const D: usize> {
    frame: &'a Frame<'a, D>,
    cells: &'a [Cell<D>],
    lows: [i64; D],
    highs: [i64; D],
    states: [State; 18],
}

impl<'a, const D: usize> Places<'a, D> {
    /// The walk over these cells, of which none was entered.
    fn new(frame: &'a Frame<'a, D>, cells: &'a [Cell<D>]) -> Places<'a, D>
        requires frame { IsFrame D (record { table = frame.now.pred.now; schedule = frame.now.schedule.now; chunk = frame.now.chunk }) frame.now.inverse frame.now.blocks.items }
        requires few { length cells.now < 2 ^ 32 }
        ensures stands { WalkStands D (record { table = result.frame.now.pred.now; schedule = result.frame.now.schedule.now; chunk = result.frame.now.chunk }) result.frame.now.inverse result.frame.now.blocks.items result.cells.now result.lows result.highs result.states }
        ensures frame { result.frame.now ≡ frame.now }
        ensures cells { result.cells.now ≡ cells.now }
        ensures rest { rest_in (record { table = result.frame.now.pred.now; schedule = result.frame.now.schedule.now; chunk = result.frame.now.chunk }) result.frame.now.inverse result.frame.now.blocks.items result.lows result.highs result.states ≡ [] }
    {
        Places {
            frame,
            cells,
            lows: [0; D],
            highs: [0; D],
            states: [ended(); 18],
        }
    }

    /// How many tiles there are.
    fn tiles(&self) -> u32
        requires { WalkStands D (record { table = self.now.frame.now.pred.now; schedule = self.now.frame.now.schedule.now; chunk = self.now.frame.now.chunk }) self.now.frame.now.inverse self.now.frame.now.blocks.items self.now.cells.now self.now.lows self.now.highs self.now.states }
        ensures { result ≡ length (lists_of (record { table = self.now.frame.now.pred.now; schedule = self.now.frame.now.schedule.now; chunk = self.now.frame.now.chunk }) self.now.frame.now.inverse self.now.frame.now.blocks.items D self.now.cells.now) }
    {
        self.cells.len() as u32
    }

    /// Enters a tile.
    fn enter(&mut self, tile: u32)
        requires stands { WalkStands D (record { table = self.old.frame.now.pred.now; schedule = self.old.frame.now.schedule.now; chunk = self.old.frame.now.chunk }) self.old.frame.now.inverse self.old.frame.now.blocks.items self.old.cells.now self.old.lows self.old.highs self.old.states }
        requires inside { tile < length self.old.cells.now }
        ensures stands { WalkStands D (record { table = self.new.frame.now.pred.now; schedule = self.new.frame.now.schedule.now; chunk = self.new.frame.now.chunk }) self.new.frame.now.inverse self.new.frame.now.blocks.items self.new.cells.now self.new.lows self.new.highs self.new.states }
        ensures frame { self.new.frame.now ≡ self.old.frame.now }
        ensures cells { self.new.cells.now ≡ self.old.cells.now }
        ensures rest { rest_in (record { table = self.new.frame.now.pred.now; schedule = self.new.frame.now.schedule.now; chunk = self.new.frame.now.chunk }) self.new.frame.now.inverse self.new.frame.now.blocks.items self.new.lows self.new.highs self.new.states ≡ slice_index_or (lists_of (record { table = self.old.frame.now.pred.now; schedule = self.old.frame.now.schedule.now; chunk = self.old.frame.now.chunk }) self.old.frame.now.inverse self.old.frame.now.blocks.items D self.old.cells.now) tile [] }
    {
        let found = cell_box(self.frame.schedule, &self.cells[tile as usize]);
        let lows = found.lows;
        let highs = found.highs;
        self.lows = lows;
        self.highs = highs;
        start(
            D,
            self.frame.blocks.as_slice(),
            &self.lows,
            &self.highs,
            &mut self.states,
        );
    }

    /// Takes the first instance off what remains.
    fn next(&mut self) -> Option<Instance<D>>
        requires stands { WalkStands D (record { table = self.old.frame.now.pred.now; schedule = self.old.frame.now.schedule.now; chunk = self.old.frame.now.chunk }) self.old.frame.now.inverse self.old.frame.now.blocks.items self.old.cells.now self.old.lows self.old.highs self.old.states }
        ensures stands { WalkStands D (record { table = self.new.frame.now.pred.now; schedule = self.new.frame.now.schedule.now; chunk = self.new.frame.now.chunk }) self.new.frame.now.inverse self.new.frame.now.blocks.items self.new.cells.now self.new.lows self.new.highs self.new.states }
        ensures frame { self.new.frame.now ≡ self.old.frame.now }
        ensures cells { self.new.cells.now ≡ self.old.cells.now }
        ensures some { IfSome result (λ instance. rest_in (record { table = self.old.frame.now.pred.now; schedule = self.old.frame.now.schedule.now; chunk = self.old.frame.now.chunk }) self.old.frame.now.inverse self.old.frame.now.blocks.items self.old.lows self.old.highs self.old.states ≡ instance ∷ rest_in (record { table = self.new.frame.now.pred.now; schedule = self.new.frame.now.schedule.now; chunk = self.new.frame.now.chunk }) self.new.frame.now.inverse self.new.frame.now.blocks.items self.new.lows self.new.highs self.new.states) }
        ensures none { IsNone result → (rest_in (record { table = self.old.frame.now.pred.now; schedule = self.old.frame.now.schedule.now; chunk = self.old.frame.now.chunk }) self.old.frame.now.inverse self.old.frame.now.blocks.items self.old.lows self.old.highs self.old.states ≡ []) × (rest_in (record { table = self.new.frame.now.pred.now; schedule = self.new.frame.now.schedule.now; chunk = self.new.frame.now.chunk }) self.new.frame.now.inverse self.new.frame.now.blocks.items self.new.lows self.new.highs self.new.states ≡ []) }
    {
        let best = next(
            D,
            self.frame.blocks.as_slice(),
            &self.lows,
            &self.highs,
            &mut self.states,
        )?;
        Some(instance(self.frame, &best))
    }
}

/// The walk over some cells of a chunk: of each its instances, by place and then by rank.
#[derive(Drop)]
pub struct TileWalk<'a, const D: usize> {
    places: Places<'a, D>,
}

impl<'a, const D: usize> Model for TileWalk<'a, D> {
    ghost use Rattle.skeletons.specs.Frames.{lists_of};
    ghost use Rattle.skeletons.specs.Walks.{Lists, WalkStands, rest_in};

    ghost Value = { Lists };

    ghost view = { λ w. record {
      lists = lists_of (record { table = w.places.frame.now.pred.now; schedule = w.places.frame.now.schedule.now; chunk = w.places.frame.now.chunk }) w.places.frame.now.inverse w.places.frame.now.blocks.items D w.places.cells.now;
      rest = rest_in (record { table = w.places.frame.now.pred.now; schedule = w.places.frame.now.schedule.now; chunk = w.places.frame.now.chunk }) w.places.frame.now.inverse w.places.frame.now.blocks.items w.places.lows w.places.highs w.places.states;
    } };

    ghost invariant = { λ w. WalkStands D (record { table = w.places.frame.now.pred.now; schedule = w.places.frame.now.schedule.now; chunk = w.places.frame.now.chunk }) w.places.frame.now.inverse w.places.frame.now.blocks.items w.places.cells.now w.places.lows w.places.highs w.places.states };
}

impl<'a, const D: usize> TileWalk<'a, D> {
    /// The walk over these cells, fewer than 2^32, of which none was entered. It takes no memory.
    pub fn new(skeleton: &'a Skeleton<'a, D>, cells: &'a [Cell<D>]) -> TileWalk<'a, D>
        requires few { length cells.now < 2 ^ 32 }
        ensures lists { AreListsOf skeleton.now cells.now result.lists }
        ensures rest { result.rest ≡ [] }
    {
        TileWalk {
            places: Places::new(skeleton.frame(), cells),
        }
    }
}

impl<'a, const D: usize> Walk<D> for TileWalk<'a, D> {
    ghost lists = { λ w. w.lists };

    ghost rest = { λ w. w.rest };

    fn tiles(&self) -> u32 {
        self.places.tiles()
    }

    fn enter(&mut self, tile: u32) {
        self.places.enter(tile);
    }

    fn next(&mut self) -> Option<Instance<D>> {
        self.places.next()
    }
}
