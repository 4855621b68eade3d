//! Laws on the definitions of tokens.

ghost use Rattle.nest_tokens.specs.Division.{OneDivision, TokensDivide};
ghost use Rattle.nest_tokens.specs.Examples.{TokenExamples};

/// A text is gaps and its tokens by turns. Each token has its spelling at its place, and what stands behind
/// it can't be a part of it: a name and a number end where none of their bytes follows, and no sign that
/// stands at a sign's place is longer.
#[tactic(auto, using(crate::proofs::DividingLaws::division))]
pub fn tokens_divide()
    ensures { TokensDivide }
{}

/// No list of tokens but this one divides a text so.
#[tactic(auto, using(crate::proofs::OneDivision::one))]
pub fn one_division()
    ensures { OneDivision }
{}

/// Tokens of texts, each computed by hand.
#[tactic(auto, using(crate::proofs::ExampleLaws::examples))]
pub fn examples()
    ensures { TokenExamples }
{}
