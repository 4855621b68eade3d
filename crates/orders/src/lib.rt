//! Running a list of instances in another order.
//!
//! An instance is whatever runs on words: a machine says which words each reads and writes, and what
//! running it gives, or that it gives nothing. Where a run depends on the words that it touches and changes
//! those that it writes, and no more, the machine is lawful, and then what conflicts alone fixes the order:
//! neighbours that don't conflict may be exchanged, a list may be run in any order that keeps the order of
//! each conflicting pair, and what is apart may run side by side.
//!
//! The crate stands on `plain_lemmas` for membership. The layers above state that their instances are lawful and have each law at
//! them.
#![tactic(auto)]

ghost use Rattle.orders.specs.Runs.{Machine, Lawful};
ghost use Rattle.orders.specs.Chains.{Turns, ChainLaw};
ghost use Rattle.orders.specs.Orders.{SwapLaw, PermutationLaw, PlacesLaw, SortedLaw};
ghost use Rattle.orders.specs.Tiles.{SideBySideLaw, ScheduleLaw, SharedLaw, SharedNoneLaw, named, lists};
ghost use Rattle.std.specs.Prelude.{◌≡◌, ℕ, ℤ, true, List};

/// Two neighbours that do not conflict may be exchanged.
pub fn swap_law<I>()
    ensures { (machine : Machine I) → Lawful machine → SwapLaw machine }
{}

/// A list may be run in each order that keeps the order of what conflicts.
pub fn permutation_law<I>()
    ensures { (machine : Machine I) → Lawful machine → PermutationLaw machine }
{}

/// The same, for permutations of places, where an instance may stand twice.
pub fn places_law<I>()
    ensures { (machine : Machine I) → Lawful machine → PlacesLaw machine }
{}

/// A list in the order of one key may be run in that of another one.
pub fn sorted_law<I>()
    ensures { (machine : Machine I) → Lawful machine → SortedLaw machine }
{}

/// What runs side by side from one base gives what one after another gives.
pub fn side_by_side_law<I>()
    ensures { (machine : Machine I) → Lawful machine → SideBySideLaw machine }
{}

/// Phases of tiles give what the original list gives.
pub fn schedule_law<I>()
    ensures { (machine : Machine I) → Lawful machine → ScheduleLaw machine }
{}

/// Tiles that several took, each in its own order, give what all tiles by number give.
pub fn shared_law<I>()
    ensures { (machine : Machine I) → Lawful machine → (tile : ℕ → List I) → SharedLaw (named tile (lists machine)) }
{}

/// One who fails makes the whole fail.
pub fn shared_none_law<I>()
    ensures { (machine : Machine I) → Lawful machine → (tile : ℕ → List I) → SharedNoneLaw (named tile (lists machine)) }
{}

/// A plain run of instances that hand scalars on has no deviation exactly where the compared runs are not None and the
/// steps suffice; where scalars that are called the same are equal.
pub fn chain_law<I>()
    ensures { (turns : Turns I) (machine : Machine I) → ((a b : List ℤ) → turns.same a b ≡ true → a ≡ b) → ChainLaw turns machine }
{}
