//! Walks over the instances of tiles.

ghost use Rattle.std.specs.Prelude.{◌≡◌, ◌<◌, ◌∷◌, [], List, length, slice_index_or, IsNone, IfSome};
ghost use Rattle.domain.specs.Instances.{Instance as Point};

use domain::Instance;

/// Tiles, each with a list of instances, and the list that remains of the tile that was entered. A new walk has entered
/// no tile, and its remaining list is empty.
pub trait Walk<const D: usize>: Drop {
    /// The list of each tile. No call changes them.
    ghost lists: { Self → List (List Point) };

    /// What remains of the tile that was entered.
    ghost rest: { Self → List Point };

    /// How many tiles there are.
    fn tiles(&self) -> u32
        ensures { result ≡ length (lists self.now) };

    /// Enters a tile, below `tiles()`: its whole list is the remaining one.
    fn enter(&mut self, tile: u32)
        requires inside { tile < length (lists self.old) }
        ensures lists { lists self.new ≡ lists self.old }
        ensures rest { rest self.new ≡ slice_index_or (lists self.old) tile [] };

    /// The first instance of the remaining list, which is taken off. None comes exactly where the list is empty, and leaves it.
    fn next(&mut self) -> Option<Instance<D>>
        ensures lists { lists self.new ≡ lists self.old }
        ensures some { IfSome result (λ instance. rest self.old ≡ instance ∷ rest self.new) }
        ensures none { IsNone result → (rest self.old ≡ []) × (rest self.new ≡ []) };
}
