//! A walk that gives the first instance of the nest, so many times in each tile.

use domain::Instance;
use phase_run::MakeWalk;
use skeletons::Walk;

/// So many tiles, each with so many copies of the first instance.
#[derive(Drop)]
pub struct Repeats {
    pub tiles: u32,
    pub each: u32,
}

impl MakeWalk<1> for Repeats {
    type Out = Repeated;

    ghost use Rattle.turns_bench.specs.Copies.{tiles_of};

    ghost lists = { λ w. tiles_of w.tiles w.each };

    fn make(&self) -> Repeated {
        Repeated {
            tiles: self.tiles,
            each: self.each,
            left: 0,
        }
    }
}

/// A walk over them, with what is left of the tile that was entered.
#[derive(Drop)]
pub struct Repeated {
    tiles: u32,
    each: u32,
    left: u32,
}

impl Walk<1> for Repeated {
    ghost use Rattle.turns_bench.specs.Copies.{copies, tiles_of};

    ghost lists = { λ w. tiles_of w.tiles w.each };

    ghost rest = { λ w. copies w.left };

    fn tiles(&self) -> u32 {
        self.tiles
    }

    fn enter(&mut self, _tile: u32) {
        self.left = self.each;
    }

    fn next(&mut self) -> Option<Instance<1>> {
        if self.left == 0 {
            return None;
        }
        self.left -= 1;
        Some(Instance { block: 0, at: [0] })
    }
}
