//! The walks of a phase's workers.

ghost use Rattle.std.specs.Prelude.{◌≡◌, ◌<◌, ◌^◌, length};
ghost use Rattle.skeletons.specs.Cells.{AreListsOf};

use phase_run::MakeWalk;
use skeletons::{Cell, Skeleton, TileWalk};
use std::marker::Model;

/// What makes the walks over the cells of a phase. It keeps one that enters no tile: the lists of the others are those of
/// this one, since a cell has one list. Contracts see these lists. `P` is the type of the cells' reference; with it in the
/// type of a maker it is known that the cells live as long as its walks.
#[derive(Drop)]
pub struct PhaseWalks<'a, P: Drop, const D: usize> {
    skeleton: &'a Skeleton<'a, D>,
    cells: &'a [Cell<D>],
    first: TileWalk<'a, D>,
    of: P,
}

impl<'a, P: Drop, const D: usize> Model for PhaseWalks<'a, P, D> {
    ghost use Rattle.std.specs.Prelude.{List};
    ghost use Rattle.domain.specs.Instances.{Instance as Point};
    ghost use Rattle.chunk_run.specs.Walks.{AreWalked};

    ghost Value = { List (List Point) };

    ghost view = { λ w. w.first.lists };

    ghost invariant = { λ w. AreWalked D w.skeleton.now w.cells.now w.first.lists };
}

impl<'a, const D: usize> PhaseWalks<'a, &'a [Cell<D>], D> {
    /// Walks over these cells, fewer than 2^32. D is from 1 to 6. Takes no memory.
    pub fn new(
        skeleton: &'a Skeleton<'a, D>,
        cells: &'a [Cell<D>],
    ) -> PhaseWalks<'a, &'a [Cell<D>], D>
        requires deep { D < 7 }
        requires few { length cells.now < 2 ^ 32 }
        ensures lists { AreListsOf skeleton.now cells.now result }
    {
        PhaseWalks {
            skeleton,
            cells,
            first: TileWalk::new(skeleton, cells),
            of: cells,
        }
    }
}

impl<'a, const D: usize> MakeWalk<D> for PhaseWalks<'a, &'a [Cell<D>], D> {
    type Out = TileWalk<'a, D>;

    ghost lists = { λ w. w };

    fn make(&self) -> TileWalk<'a, D> {
        TileWalk::new(self.skeleton, self.cells)
    }
}
