//! The words of scripts.

ghost use Rattle.std.specs.Prelude.{◌≡◌, ◌≤◌, length};
ghost use Rattle.nest_grammar.specs.Scripts.{word_spelling};

/// The word that a command begins with. These words are not reserved.
#[derive(Clone, Copy, Debug, PartialEq, Eq)]
pub enum CommandWord {
    Seq,
    Swap,
    Skew,
    Tile,
    Par,
    Wave,
}

impl CommandWord {
    /// How the word is spelled: three or four letters.
    #[tactic(auto, unfolding(crate::specs::Scripts::word_spelling))]
    pub fn spelling(self) -> &'static [u8]
        ensures spelled { result.now ≡ word_spelling self }
        ensures short { length result.now ≤ 4 }
    {
        match self {
            CommandWord::Seq => b"seq",
            CommandWord::Swap => b"swap",
            CommandWord::Skew => b"skew",
            CommandWord::Tile => b"tile",
            CommandWord::Par => b"par",
            CommandWord::Wave => b"wave",
        }
    }
}
