//! The laws of legality: functions that do nothing, whose contracts are the laws.

ghost use Rattle.legality.specs.Laws.{RefusalsName, ChoicesName, DependencesName};

/// The refusal of a schedule names two accesses of the prediction, a case from 1 to D, a row from 1 to D and a verdict that
/// isn't Empty.
pub fn refusals_name()
    ensures { RefusalsName }
{}

/// So does each refusal that `choose` answers.
pub fn choices_name()
    ensures { ChoicesName }
{}

/// Each dependence names two accesses of the prediction, a case from 1 to D + 1 and a verdict that isn't Empty; the case D + 1
/// only where the first block has the smaller rank.
pub fn dependences_name()
    ensures { DependencesName }
{}
