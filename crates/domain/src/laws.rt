//! Laws: functions that do nothing, each with a law of the definitions as its contract.

ghost use Rattle.domain.specs.Examples.{PremisesCanHold};
ghost use Rattle.domain.specs.Laws.{OrderIsStrict, OneList, LaunchedTrips, LaunchedCounters, LaunchedPlaces, LaunchedWords, TableOfNest, RanksOfNest};

/// Original order is a strict total order of the instances of present blocks.
pub fn order_is_strict()
    ensures { OrderIsStrict }
{}

/// There is one list of the predicted instances in original order.
pub fn one_list()
    ensures { OneList }
{}

/// Where a chunk is launched, no predicted trip at the first predicted head of an inner loop is negative.
pub fn launched_trips()
    ensures { LaunchedTrips }
{}

/// Where a chunk is launched, each counter of a predicted instance is from 0 to 65,535 above the chunk's first turn. So a
/// caller who knows of a launch meets what `successor` and `footprint` ask of the counters.
pub fn launched_counters()
    ensures { LaunchedCounters }
{}

/// Where a chunk is launched, each number of the padded point of a predicted instance is from 0 to 65,536 above the chunk's
/// first turn, as `padded` asks.
pub fn launched_places()
    ensures { LaunchedPlaces }
{}

/// Where a chunk is launched, each address that a predicted instance writes is a word, as `footprint` asks.
pub fn launched_words()
    ensures { LaunchedWords }
{}

/// The table of a nest that keeps the rules, in a file of at most 16 scalars, is a table, as `Prediction::new` asks, where
/// the strides are of 64 bits and the loops' names stay within what can be computed.
pub fn table_of_nest()
    ensures { TableOfNest }
{}

/// In the table of a nest, a block has the rank that it has in the nest.
pub fn ranks_of_nest()
    ensures { RanksOfNest }
{}

/// The premises of the contracts can be met.
pub fn premises_can_hold()
    ensures { PremisesCanHold }
{}
