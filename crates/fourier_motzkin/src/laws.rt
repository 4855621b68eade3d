//! Laws: functions that do nothing, each with a law of the definitions as its contract.

ghost use Rattle.fourier_motzkin.specs.Laws.{AllowedPointsMeet, BoundedLevelsClose, EliminatingKeepsPoints, EmptyHasNoPoint, LevelsReach, OrderIsNoMatter, PointsLieInRanges, TidiedIsKept, TidyingKeepsPoints};

/// The tidied set is the one list that rises by the coefficients and has exactly the rows that tidying keeps.
pub fn tidied_is_kept()
    ensures { TidiedIsKept }
{}

/// A whole-number point meets all rows exactly where it meets the tidied rows.
pub fn tidying_keeps_points()
    ensures { TidyingKeepsPoints }
{}

/// A whole-number point that meets all rows meets the rows after an elimination, which are then not False.
pub fn eliminating_keeps_points()
    ensures { EliminatingKeepsPoints }
{}

/// Where the verdict is Empty, no whole-number point meets all rows.
pub fn empty_has_no_point()
    ensures { EmptyHasNoPoint }
{}

/// Tidied sets, eliminations, verdicts and bounds are the same for two lists with the same rows.
pub fn order_is_no_matter()
    ensures { OrderIsNoMatter }
{}

/// Level k of the bounds holds rows over the variables up to k: their coefficients on later ones are 0.
pub fn levels_reach()
    ensures { LevelsReach }
{}

/// At each level a whole-number point that meets all rows has an allowed value after its outer values, so that
/// scanning the ranges from the first level on misses no point.
pub fn points_lie_in_ranges()
    ensures { PointsLieInRanges }
{}

/// Where the verdict is Maybe, a whole-number point that is allowed at every level meets all rows, so that scanning
/// the ranges gives no point that doesn't.
pub fn allowed_points_meet()
    ensures { AllowedPointsMeet }
{}

/// Where the verdict is Maybe, a variable that two of the rows bound, each by itself and one on each side, is bound on
/// both sides at its level.
pub fn bounded_levels_close()
    ensures { BoundedLevelsClose }
{}
