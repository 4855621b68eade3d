//! Laws of longest runs and of outcomes, each the contract of a function that does nothing.

ghost use Rattle.report.specs.Laws.{OneListOfRuns, OneOutcome};
ghost use Rattle.report.specs.Examples.{RunExamples, OutcomeExamples};
ghost use Rattle.report.specs.LineExamples.{LineExamples};

/// Each memory has exactly one list of the longest runs of equal words that aren't 0, ascending.
pub fn one_list_of_runs()
    ensures { OneListOfRuns }
{}

/// Names, a store, an ending and steps have exactly one outcome.
pub fn one_outcome()
    ensures { OneOutcome }
{}

/// Longest runs that were found by hand.
pub fn run_examples()
    ensures { RunExamples }
{}

/// Outcomes that were written by hand.
pub fn outcome_examples()
    ensures { OutcomeExamples }
{}

/// Lines that were written by hand.
pub fn line_examples()
    ensures { LineExamples }
{}
