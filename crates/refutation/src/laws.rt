//! Laws: functions that do nothing, each with a law of the definitions as its contract.

ghost use Rattle.refutation.specs.Laws.{AddKeepsPoints, RefutationKeepsPoints, RefutedHasNoPoint};

/// A whole-number point that meets some rows meets the row that an add makes of them.
pub fn add_keeps_points()
    ensures { AddKeepsPoints }
{}

/// A whole-number point that meets some rows meets each row of a refutation of them.
pub fn refutation_keeps_points()
    ensures { RefutationKeepsPoints }
{}

/// No whole-number point meets rows that have a refutation.
pub fn refuted_has_no_point()
    ensures { RefutedHasNoPoint }
{}
