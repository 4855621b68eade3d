//! Runs of equal words.
ghost use Rattle.std.specs.Prelude.{◌≡◌, ℕ, ℤ, List, ◌++◌, OnOk, flat_map, string_bytes};
ghost use Rattle.report.specs.LongestRuns.{LongestRuns};
ghost use Rattle.report.specs.Outcomes.{words_line};

use std::alloc::AllocError;

/// A run of equal words: its first and its last address, and the word.
#[derive(Clone, Copy, Debug, PartialEq, Eq)]
pub struct WordRun {
    pub first: usize,
    pub last: usize,
    pub value: i64,
}

impl WordRun {
    /// Writes the line of this run.
    fn push_line(&self, text: &mut String) -> Result<(), AllocError>
        ensures { OnOk result (string_bytes text.new ≡ string_bytes text.old ++ words_line self.now) }
    {
        writeln!(text, "words {} {} {}", self.first, self.last, self.value)
    }
}

/// Writes a line for each longest run of equal words that aren't 0, ascending.
pub(crate) fn push_words(text: &mut String, memory: &[i64]) -> Result<(), AllocError>
    ensures { OnOk result ((runs : List WordRun) × LongestRuns memory.now runs
        × (string_bytes text.new ≡ string_bytes text.old ++ flat_map words_line runs)) }
{
    let mut first = 0;
    for words in memory.chunk_by(|one, next| one == next) {
        let run = WordRun {
            first,
            last: first + words.len() - 1,
            value: words[0],
        };
        if run.value != 0 {
            run.push_line(text)?;
        }
        first += words.len();
    }
    Ok(())
}
