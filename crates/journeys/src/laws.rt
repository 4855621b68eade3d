//! Laws of journeys, each the contract of a function that does nothing.

ghost use Rattle.journeys.specs.Examples.{PremisesCanHold};
ghost use Rattle.journeys.specs.Laws.{MomentsArePlain, NestRunIsPlain, RunIsPlain, ChunkLeadsOneWay, ChunkLeadsSomewhere, LaunchHasEnd, LaunchHasNumbers, LaunchHasOneEnd, LaunchHasOneSet, PlainLeadsOneWay, PlainLeadsSomewhere, ProfileLeadsOneWay, ProfileLeadsSomewhere, StageLeadsOneWay, OneJourney, OneNestJourney, SomeJourney, OneLaunched, BegunGoesOn};

/// The run of a journey is the plain run: that of a nest's at each line and at its end, and that of a file's at its end.
pub fn run_is_plain()
    ensures moments { MomentsArePlain }
    ensures nest { NestRunIsPlain }
    ensures file { RunIsPlain }
{}

/// Each stage leads one way, to the same lines, the same stage and the same moment: a profile, a chunk, and turns in
/// original order.
pub fn ways_are_one()
    ensures profile { ProfileLeadsOneWay }
    ensures chunk { ChunkLeadsOneWay }
    ensures plainly { PlainLeadsOneWay }
    ensures stage { StageLeadsOneWay }
{}

/// A file has at most one journey with the same options, and a nest of it at most one from where it begins.
pub fn one_journey()
    ensures nest { OneNestJourney }
    ensures file { OneJourney }
{}

/// A file that keeps the rules and whose numbers are i64s has a journey with the options of any run.
pub fn some_journey()
    ensures { SomeJourney }
{}

/// A chunk of at least one turn is launched or held, in one way, and a launched one has one set of numbers.
pub fn launches_end()
    ensures ends { LaunchHasEnd }
    ensures one { LaunchHasOneEnd }
    ensures numbers { LaunchHasNumbers }
    ensures set { LaunchHasOneSet }
{}

/// Each stage leads somewhere: a profile, turns in original order, and a chunk whose table is one and whose candidate is
/// there.
pub fn stages_lead()
    ensures profile { ProfileLeadsSomewhere }
    ensures plainly { PlainLeadsSomewhere }
    ensures chunk { ChunkLeadsSomewhere }
{}

/// A journey of a file launches one list of chunks, and as far as a run of it came it has launched the first of them.
pub fn launches_are_one()
    ensures one { OneLaunched }
    ensures goes_on { BegunGoesOn }
{}

/// The premises of the law on journeys can be met.
pub fn premises_can_hold()
    ensures { PremisesCanHold }
{}
