//! Tiles and plans.
ghost use Rattle.std.specs.Prelude.{◌≡◌};

use crate::sequence::Sequence;

/// The addresses that one tile may load from, and those that it may load from and store to.
#[derive(Debug, Drop)]
pub struct Tile {
    pub reads: Sequence<u64>,
    pub writes: Sequence<u64>,
}

/// The tiles of one phase, numbered from 0.
#[derive(Debug, Drop)]
pub struct Plan {
    pub tiles: Sequence<Tile>,
}

impl Tile {
    pub fn new(reads: Vec<u64>, writes: Vec<u64>) -> Tile
        ensures reads { result.reads ≡ reads.items }
        ensures writes { result.writes ≡ writes.items }
    {
        Tile {
            reads: Sequence::from_vec(reads),
            writes: Sequence::from_vec(writes),
        }
    }
}

impl Plan {
    pub fn new(tiles: Vec<Tile>) -> Plan
        ensures { result.tiles ≡ tiles.items }
    {
        Plan {
            tiles: Sequence::from_vec(tiles),
        }
    }
}
