//! What the arguments ask for.

ghost use Rattle.std.specs.Prelude.{map, option_map};
ghost use Rattle.command_line.specs.Invocations.{Finds};
ghost use Rattle.command_line.specs.Modes.{IsModeOf};

use crate::recipe::Recipe;

/// What the program is to do. A mode stands here once it is built.
#[derive(Clone, Copy, Debug, PartialEq, Eq)]
pub enum Mode {
    /// Run the file plainly, and write the outcome.
    Plain,
    /// Run the file speculatively, and write the outcome and the lines of the journey.
    Run,
    /// Write the canonical text of the file.
    Check,
    /// Write the dependence listing of the file.
    Deps,
    /// Run a generated file speculatively, and write a summary.
    Gen(Recipe),
}

impl Mode {
    /// The mode of a word and the values behind it, if one that is built has them.
    pub(crate) fn of_words(word: &str, arguments: Option<&[&str]>) -> Option<Mode>
        ensures { Finds result (IsModeOf word.now (option_map (λ texts. map (λ text. text.now) texts.now) arguments.entry)) }
    {
        match (word, arguments) {
            ("plain", None) => Some(Mode::Plain),
            ("run", None) => Some(Mode::Run),
            ("check", None) => Some(Mode::Check),
            ("deps", None) => Some(Mode::Deps),
            ("gen", Some(texts)) => Some(Mode::Gen(Recipe::of_words(texts)?)),
            _ => None,
        }
    }
}

/// The numbers of the four options (docs/LANGUAGE.md, The command line).
#[derive(Clone, Copy, Debug, PartialEq, Eq)]
pub struct Options {
    /// The workers, 1 to 64.
    pub workers: u32,
    /// The turns of a chunk, 1 to 1,024.
    pub chunk: i64,
    /// The turns of a profile, 2 to 64.
    pub sample: i64,
    /// The steps of a run, at most 2^32.
    pub steps: u64,
}

/// A mode and its options.
#[derive(Clone, Copy, Debug, PartialEq, Eq)]
pub struct Invocation {
    pub mode: Mode,
    pub options: Options,
}
