//! The laws of dependence: functions that do nothing, whose contracts are the laws.

ghost use Rattle.dependence.specs.Laws.{LegalIsUnmet, PairHasSystem, OrderKept, TilesApart, ConflictLaw, AccessesOfNest, UnseenLoopUnmet};

/// In a launched chunk of at most L turns each conflicting pair, in original order, meets the rows of a system for L.
pub fn pair_has_system()
    ensures { PairHasSystem }
{}

/// Where a schedule is legal, no whole-number point meets a system with a violated row.
pub fn legal_is_unmet()
    ensures { LegalIsUnmet }
{}

/// Where no point meets a system with a violated row, each conflicting pair keeps its order.
pub fn order_kept()
    ensures { OrderKept }
{}

/// Two instances in different tiles of one phase never conflict.
pub fn tiles_apart()
    ensures { TilesApart }
{}

/// The conflict law: in the scheduled list each conflicting pair stands as in the original list, and two instances in
/// different tiles of one phase never conflict.
pub fn conflict_law()
    ensures { ConflictLaw }
{}

/// What refers to an access of the table of a nest refers to an access of a present block of the nest.
pub fn accesses_of_nest()
    ensures { AccessesOfNest }
{}

/// No point meets a system of a block inside a loop of which no head was seen.
pub fn unseen_loop_unmet()
    ensures { UnseenLoopUnmet }
{}
