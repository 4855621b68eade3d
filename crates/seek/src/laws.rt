//! Laws: functions that do nothing, each with a law of the definitions as its contract.

ghost use Rattle.seek.specs.Laws.{FirstIsFound, ListedAreSchedules, RefutedIsIllegal};

/// Each script of a schedule list keeps the rules, so that it has a schedule.
pub fn listed_are_schedules()
    ensures { ListedAreSchedules }
{}

/// What is sought is the least legal number of the list, with a refusal that refutes each number before it; where none is
/// legal nothing is found, and each number is refuted.
pub fn first_is_found()
    ensures { FirstIsFound }
{}

/// A schedule that a refusal refutes isn't legal.
pub fn refuted_is_illegal()
    ensures { RefutedIsIllegal }
{}
