//! Laws of instances that follow their prediction.

ghost use Rattle.follow.specs.Alike.{FollowsAlike};
ghost use Rattle.follow.specs.ChainLaw.{ChainHolds};
ghost use Rattle.follow.specs.Deviations.{DeviationIsOne, DeviatesOrFollows, NotBoth};
ghost use Rattle.follow.specs.Instances.{PlannedByInstance};
ghost use Rattle.follow.specs.OriginalOrder.{PlannedInOriginalOrder};
ghost use Rattle.follow.specs.PlannedLaws.{PlannedSome, PlannedFirst};
ghost use Rattle.follow.specs.ReorderLaws.{FollowIsLawful, SwapKeeps, PermutationKeeps, PlacesKeep, OrderKeeps};

/// A chunk's run has at most one deviation.
pub fn deviation_is_one()
    ensures { DeviationIsOne }
{}

/// A chunk's run has a deviation exactly where the chunk doesn't follow its prediction.
pub fn deviates_or_follows()
    ensures one { DeviatesOrFollows }
    ensures not_both { NotBoth }
{}

/// The instances of some turns stand in original order: by padded point, and then by the rank of the block.
/// There is one where the nest keeps the rules, and the first is of the first present block in the next
/// turn. Each is what its block and its turn numbers say.
pub fn planned_in_order()
    ensures ordered { PlannedInOriginalOrder }
    ensures some { PlannedSome }
    ensures first { PlannedFirst }
    ensures each { PlannedByInstance }
{}

/// For each forecast, what an instance gives depends on the words of its footprint alone, and only the words that
/// it writes change.
pub fn follow_is_lawful()
    ensures { FollowIsLawful }
{}

/// Of a forecast, what an instance gives depends on its own expected scalars, on the intervals of its own accesses, on
/// what its own head is expected to yield, and on the scalars that are expected after it, alone.
pub fn follow_depends_on_expected()
    ensures { FollowsAlike }
{}

/// The swap law: two neighbours in a list that do not conflict may be exchanged.
pub fn swap_keeps()
    ensures { SwapKeeps }
{}

/// The permutation law: a list may be run in each order that keeps the order of every conflicting pair; of
/// lists in which nothing stands twice, and by places of every list.
pub fn permutation_keeps()
    ensures permutation { PermutationKeeps }
    ensures places { PlacesKeep }
{}

/// The instances of a chunk may be run in the order of any key that keeps the order of every conflicting
/// pair.
pub fn order_keeps()
    ensures { OrderKeeps }
{}

/// The chain law: a chunk follows its prediction exactly where the scalars at its start are those expected of
/// its first instance, the follow run of its instances is not None, and its steps are at most those left.
/// The state after it is then the memory of that follow run and the scalars expected after it.
pub fn chain()
    ensures { ChainHolds }
{}
