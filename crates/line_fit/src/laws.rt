//! Laws: functions that do nothing, each with a law of the definitions as its contract.

ghost use Rattle.line_fit.specs.Laws.{CoefficientIsOne, LineIsOne, FitIsOne, SamplesLieInTube, LineIsOnlyAffine, FitOrUnfit, FitOrReason, ReasonIsOne};
ghost use Rattle.line_fit.specs.Examples.{FitExamples};

/// A counter has one coefficient.
pub fn coefficient_is_one()
    ensures { CoefficientIsOne }
{}

/// Samples have one line.
pub fn line_is_one()
    ensures { LineIsOne }
{}

/// Samples have one fit.
pub fn fit_is_one()
    ensures { FitIsOne }
{}

/// Every sample lies in its tube about the line.
pub fn samples_lie_in_tube()
    ensures { SamplesLieInTube }
{}

/// Where each counter has a pair of samples that differ by one in it alone and the tube is (0, 0), the line is the
/// only affine function through the samples.
pub fn line_is_only_affine()
    ensures { LineIsOnlyAffine }
{}

/// Where there is a fit no number of the line is too large, and the tube is not too wide.
pub fn fit_or_unfit()
    ensures { FitOrUnfit }
{}

/// Samples have a fit, or a number of the line that is too large, or a tube that is too wide.
pub fn fit_or_reason()
    ensures { FitOrReason }
{}

/// Samples have at most one reason why they have no fit.
pub fn reason_is_one()
    ensures { ReasonIsOne }
{}

/// Fits that are worked by hand.
pub fn examples()
    ensures { FitExamples }
{}
