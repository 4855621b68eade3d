//! Where faults stand.

ghost use Rattle.nest_grammar.specs.Beginnings.{ContentsFaultNotTooEarly, FaultNotTooEarly};
ghost use Rattle.nest_grammar.specs.Kinds.{FaultAtItsToken};
ghost use Rattle.nest_grammar.specs.Phrases.{FaultNotTooLate, ReadTextIsSentence};

/// A fault is not too early: it stands at a token of the text, or at its end, and each text that has the
/// same tokens up to and with this one has the same fault.
#[tactic(auto, using(crate::proofs::EarlyFaultLaws::early))]
pub fn not_too_early()
    ensures text { FaultNotTooEarly }
    ensures sight { ContentsFaultNotTooEarly }
{}

/// A fault is not too late: the tokens before it begin a sentence of the grammar. Where a kind that comes
/// behind `Expected` and `Version` judges a token, so do the tokens up to and with that one. And the tokens
/// of a text that is read are a sentence.
///
/// A sentence is what the productions allow as they are written. The rules on names, numbers and how many
/// there may be are left out: that these are judged at the first token that breaks them is said by the
/// readings alone, production by production.
#[tactic(auto, using(crate::proofs::LateFaultLaws::late))]
pub fn not_too_late()
    ensures fault { FaultNotTooLate }
    ensures read { ReadTextIsSentence }
{}

/// A fault stands at a token at which its kind may come: Known, Unknown and Fixed at a name, Version at a
/// number, Empty at a `}`, Range at a number or a `-`, Script at a number or a command's word, Many at what
/// begins something counted, and Byte, Number and Name exactly at what is no token.
#[tactic(auto, using(crate::proofs::LateFaultLaws::late))]
pub fn at_its_token()
    ensures { FaultAtItsToken }
{}
