//! Laws: functions that do nothing, each with a law of the definitions as its contract.

ghost use Rattle.verified_turns.specs.FollowRuns.{RunsAreFollowRuns};
ghost use Rattle.verified_turns.specs.Machines.{InstancesKeepPhases};

/// What the workers of a phase leave is what the instances of its tiles leave, one tile after another in index order,
/// with as many steps; and where the flag was raised there is none.
pub fn instances_keep_phases()
    ensures { InstancesKeepPhases }
{}

/// What instances leave one after another is their follow run.
pub fn runs_are_follow_runs()
    ensures { RunsAreFollowRuns }
{}
