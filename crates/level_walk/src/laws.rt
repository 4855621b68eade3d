//! Laws: functions that do nothing, each with a law of the definitions as its contract.

ghost use Rattle.std.specs.Prelude.{◌≡◌, ◌-◌, ℕ, ℤ, List, [], suc};
ghost use Rattle.level_walk.specs.Spaces.{ListsPoints, Space, points};
ghost use Rattle.level_walk.specs.Fronts.{fronts, of_fronts};
ghost use Rattle.level_walk.specs.Merges.{AllOrdered, IsMerged, merged};

/// The points that a walk gives are those of the set, each once, in lexicographic order.
pub fn points_are_listed()
    ensures { (s : Space) → ListsPoints s (points s s.levels []) }
{}

/// The points are those of their fronts.
pub fn points_come_from_fronts()
    ensures { (s : Space) (n : ℕ) (outer : List ℤ) → points s (suc n) outer ≡ of_fronts s (points (fronts s) n outer) }
{}

/// What blocks have left is merged by place and then by rank: each point once.
pub fn blocks_are_merged()
    ensures { (blocks : List (List (List ℤ))) → AllOrdered blocks → IsMerged blocks (merged blocks) }
{}
