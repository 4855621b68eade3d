//! What canonical texts are to the texts that they stand for.

ghost use Rattle.canonical.specs.Laws.{FewestTokens, ReadIsWritten, RoundTrip, TokensAreWords, WritesTheSame};

/// The canonical text of what a text reads as reads as the same file, where it has at most 1,048,576 bytes.
#[tactic(auto, using(crate::proofs::TextLaws::laws))]
pub fn round_trip()
    ensures { RoundTrip }
{}

/// Writing what was read of a canonical text gives that text.
#[tactic(auto, using(crate::proofs::TextLaws::laws))]
pub fn writes_the_same()
    ensures { WritesTheSame }
{}

/// The tokens of a canonical text are the words of its pieces. This holds of every file whose names and
/// numbers are written as a text can have them, and so of every file that was read.
#[tactic(auto, using(crate::proofs::TextLaws::laws))]
pub fn tokens_are_words()
    ensures words { TokensAreWords }
    ensures written { ReadIsWritten }
{}

/// No text that reads as a file has fewer tokens than its canonical text: nothing in that is needless.
#[tactic(auto, using(crate::proofs::TextLaws::laws))]
pub fn fewest_tokens()
    ensures { FewestTokens }
{}
