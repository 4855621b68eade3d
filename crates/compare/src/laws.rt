//! Laws: functions that do nothing, each with a law of the definitions as its contract.

ghost use Rattle.compare.specs.ChainLaw.{ChainAtPredictions};
ghost use Rattle.compare.specs.CompareLaws.{ComparisonFindsFirst, TurnsShowInnerTrips, TasksAreWatchable};
ghost use Rattle.compare.specs.KeptLaws.{KeptIsExact, RunsShowValues};
ghost use Rattle.compare.specs.Premises.{PremisesCanHold};
ghost use Rattle.compare.specs.PredictedLaws.{PlannedAreOriginal, PlannedArePredicted, PredictedOccur, SuccessorsArePlanned, NextTurnOpens, TasksAreChunks};

/// The instances of a chunk that the loops of its nest have by the expected trips are the predicted ones, in
/// original order, launched or not; each is the instance of its occurrence. The scalars expected after one are those
/// that its successor begins with, and what follows the chunk is the first block at the next turn.
pub fn planned_are_predicted()
    ensures original { PlannedAreOriginal }
    ensures items { PlannedArePredicted }
    ensures occur { PredictedOccur }
    ensures successors { SuccessorsArePlanned }
    ensures opens { NextTurnOpens }
{}

/// The chain law: a chunk follows its prediction exactly where the scalars at its start are those expected of its
/// first instance, the follow run of its predicted instances is not None, and its steps are at most those left. The
/// state after it is then the memory of that run and the scalars expected of the last instance's successor.
pub fn chain()
    ensures { ChainAtPredictions }
{}

/// The laws speak of the chunk of each task, and each can be watched.
pub fn tasks_are_chunks()
    ensures chunks { TasksAreChunks }
    ensures watchable { TasksAreWatchable }
{}

/// A new comparison that was shown some things, one after another, has found the first that doesn't agree, with its
/// instance and both values, or nothing where all of them agree. Turns show no trip of an outermost loop.
pub fn comparison_finds_first()
    ensures finds { ComparisonFindsFirst }
    ensures inner { TurnsShowInnerTrips }
{}

/// Each value that the run of a chunk shows is one of its kind, where its numbers are i64s. So what is kept of its
/// deviation is the deviation itself.
pub fn kept_is_exact()
    ensures values { RunsShowValues }
    ensures exact { KeptIsExact }
{}

/// The premises of the laws and of the watch can be met.
pub fn premises_can_hold()
    ensures { PremisesCanHold }
{}
