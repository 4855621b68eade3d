//! Laws: functions that do nothing, each with a law of the definitions as its contract.

ghost use Rattle.profile.specs.Laws.{FitOrFirstUnfit, FitOrUnfit, FormIsOnlyAffine, OneFirstProfile, OneFirstUnfit, OneFit, SamplesLieInTubes};
ghost use Rattle.profile.specs.Reach.{FormsStayWithinReach, TripsStayWithinReach, TurnsLeaveI64s, TurnsShowValues};
ghost use Rattle.profile.specs.Sampled.{SamplerKeepsAll};
ghost use Rattle.profile.specs.TurnLaws.{FitsAreTables, LowersComeWithTrips};

/// A sampler that was shown a list of things, one after another, keeps the observations among them, in order, or was
/// refused memory.
pub fn sampler_keeps_all()
    ensures { SamplerKeepsAll }
{}

/// Observations don't have both a fit and a first datum that has none.
pub fn fit_or_unfit()
    ensures { FitOrUnfit }
{}

/// Observations have a fit, or a first datum that has none.
pub fn fit_or_first_unfit()
    ensures { FitOrFirstUnfit }
{}

/// Observations have at most one first datum that has no fit.
pub fn one_first_unfit()
    ensures { OneFirstUnfit }
{}

/// Observations have at most one fit.
pub fn one_fit()
    ensures { OneFit }
{}

/// Every sample of a datum with a form lies in its tube about the line.
pub fn samples_lie_in_tubes()
    ensures { SamplesLieInTubes }
{}

/// Where each counter has a pair of samples that differ by one in it alone and the tube is (0, 0), the form of a datum is
/// the only affine function through its samples.
pub fn form_is_only_affine()
    ensures { FormIsOnlyAffine }
{}

/// Each value that is shown in a run whose numbers are i64s is one of its kind, an i64, or a u64 for a trip; and the
/// store that is left is one of i64s.
pub fn turns_show_values()
    ensures shown { TurnsShowValues }
    ensures left { TurnsLeaveI64s }
{}

/// Each trip that is seen in a run whose numbers are i64s stays within reach: the stride times it is at most 2^65.
pub fn trips_stay_within_reach()
    ensures { TripsStayWithinReach }
{}

/// Where the trips that were seen stay within reach, so do the forms of a fit: `fit` finds no form beyond it.
pub fn forms_stay_within_reach()
    ensures { FormsStayWithinReach }
{}

/// The fit of what some turns show has a form of the lower bound of each `for` of whose trip it has one.
pub fn lowers_come_with_trips()
    ensures { LowersComeWithTrips }
{}

/// The fit of what some turns show is a table, as a prediction has.
pub fn fits_are_tables()
    ensures { FitsAreTables }
{}

/// A nest, a store and steps have exactly one first profile.
pub fn one_first_profile()
    ensures { OneFirstProfile }
{}
