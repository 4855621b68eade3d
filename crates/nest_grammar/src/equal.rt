//! The reading of a text and the grammar say the same; examples.

ghost use Rattle.nest_grammar.specs.Examples.{FaultExamples, ReadingExamples};
ghost use Rattle.nest_grammar.specs.Refusals.{AcceptedExamples, LimitExamples, OperatorExamples, RefusedExamples, RuleExamples};
ghost use Rattle.nest_grammar.specs.Rules.{FilesKeepRules};
ghost use Rattle.nest_grammar.specs.Laws.{FaultOrFile, OneReading, ReadingIsTheGrammar};

/// A text reads as a file exactly where the grammar, as a relation between a text and a file, says that it is
/// this file.
#[tactic(auto, using(crate::proofs::GrammarLaws::laws))]
pub fn reading_is_the_grammar()
    ensures { ReadingIsTheGrammar }
{}

/// A text is at most one file.
#[tactic(auto, using(crate::proofs::GrammarLaws::laws))]
pub fn one_reading()
    ensures { OneReading }
{}

/// A text has a fault exactly where it is no file.
pub fn fault_or_file()
    ensures { FaultOrFile }
{}

/// Texts with the files that they are, texts with a fault of each kind, and texts at each limit and each rule and
/// one step past it, each computed by hand.
#[tactic(auto, using(crate::proofs::ExampleLaws::examples, crate::proofs::RefusalLaws::refusals))]
pub fn examples()
    ensures readings { ReadingExamples }
    ensures faults { FaultExamples }
    ensures limits { LimitExamples }
    ensures rules { RuleExamples }
    ensures beside { RefusedExamples }
    ensures accepted { AcceptedExamples }
    ensures operators { OperatorExamples }
{}

/// Every file that a text is keeps these rules: it has at most 16 scalars, whose names are a letter and then
/// letters, digits and `_`, at most 32 bytes; at most 1,048,576 words; items that set words of the memory
/// alone, to values of an i64; one to eight nests, each of one to six loops with no stride 0 and a statement
/// in the innermost body. In each block of a nest the accesses are numbered from 1 on in the order of
/// evaluation, at most 64; the scalars are the file's, the names those of the loops around it, and the locals
/// at most 16; and there are fewer than 2^20 statements, nested ones counted.
#[tactic(auto, using(crate::proofs::RuleLaws::rules_kept))]
pub fn files_keep_rules()
    ensures { FilesKeepRules }
{}
