//! Laws: functions that do nothing, each with a law of the definitions as its contract.

ghost use Rattle.follow_chunk.specs.Laws.{InstancesReturn, InstancesHaveItems, NextIsSuccessor, ConflictsAgree, PremisesCanHold};
ghost use Rattle.follow_chunk.specs.ReorderLaws.{SwapKeeps, PermutationKeeps, PlacesKeep, PredictedAreInTurns};

/// An instance is that of its occurrence.
pub fn instances_return()
    ensures { InstancesReturn }
{}

/// A predicted instance of a task is one of its nest: its block and its turn numbers say what it runs.
pub fn instances_have_items()
    ensures { InstancesHaveItems }
{}

/// The instance after a predicted one is its successor, and no other is.
pub fn next_is_successor()
    ensures { NextIsSuccessor }
{}

/// Two predicted instances of a launched chunk conflict by their footprints exactly where what they run does.
pub fn conflicts_agree()
    ensures { ConflictsAgree }
{}

/// The swap law: two neighbours in a list of instances whose footprints do not conflict may be exchanged.
pub fn swap_keeps()
    ensures { SwapKeeps }
{}

/// The permutation law: a list of instances may be run in each order that keeps the order of every pair whose footprints
/// conflict; of lists in which nothing stands twice, and by places of every list.
pub fn permutation_keeps()
    ensures permutation { PermutationKeeps }
    ensures places { PlacesKeep }
{}

/// A predicted instance of a task is one of its nest in a turn of each loop around it, as the swap and the permutation law
/// ask.
pub fn predicted_are_in_turns()
    ensures { PredictedAreInTurns }
{}

/// The premises of the contracts can be met.
pub fn premises_can_hold()
    ensures { PremisesCanHold }
{}
