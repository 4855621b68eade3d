//! Cells of a chunk, and the runs of a cell.

use domain::Instance;
use std::marker::Model;

/// A cell: the instances of a chunk with one phase key and one tile.
#[derive(Clone, Copy, Debug, PartialEq, Eq, PartialOrd, Ord)]
pub struct Cell<const D: usize> {
    /// The leading numbers of the place, with a 0 for each row of the band.
    pub lead: [i64; D],
    /// The sum of the tile numbers of the band's wave rows.
    pub wave: i64,
    /// The number of the tile in each row of the band, with a 0 for each leading row.
    pub tile: [i64; D],
}

impl<const D: usize> Model for Cell<D> {
    ghost use Rattle.skeletons.specs.Cells.{Cell as Plain};

    ghost Value = { Plain };

    ghost view = { λ c. record { lead = c.lead; wave = c.wave; tile = c.tile } };

    ghost inverse = { λ c. record { lead = c.lead; wave = c.wave; tile = c.tile } };
}

/// A run of a cell: instances of one block whose padded points differ by one direction from one to the next.
#[derive(Clone, Copy, Debug, PartialEq, Eq)]
pub struct Run<const D: usize> {
    /// The first of them.
    pub first: Instance<D>,
    /// By how much the counters differ from one to the next; all zeros where there is one instance.
    pub step: [i64; D],
    /// How many there are, at least 1.
    pub count: u64,
}

impl<const D: usize> Model for Run<D> {
    ghost use Rattle.skeletons.specs.Runs.{Run as Plain};

    ghost Value = { Plain };

    ghost view = { λ r. record { first = r.first; step = r.step; count = r.count } };

    ghost inverse = { λ r. record { first = r.first; step = r.step; count = r.count } };
}
