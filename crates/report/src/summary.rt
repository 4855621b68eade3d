//! Summaries: what a journey came to, in four lines.

ghost use Rattle.std.specs.Prelude.{◌≡◌, ◌++◌, OnOk, IfOk, string_bytes};
ghost use Rattle.std.specs.List.{count_by};
ghost use Rattle.report.specs.Summaries as summaries;
ghost use Rattle.report.specs.Summaries.{counts_line, is_of, summary};

use crate::journey::Journey;
use crate::line::Line;
use crate::outcome::push_ending;
use std::alloc::{AllocError, Global};

/// The summary of a journey (docs/DEFINITIONS.md, Summaries): how the run ended, its steps, how many lines of each kind it
/// has, and the exact sum of the words that it left. It is refused only where there is no memory for it.
pub fn summary_text(alloc: Global, journey: &Journey) -> Result<Vec<u8>, AllocError>
    ensures { IfOk result (λ bytes. bytes.items ≡ summary journey.now.ending journey.now.steps journey.now.lines.items journey.now.state.memory) }
{
    let mut text = String::new(alloc);
    push_ending(&mut text, &journey.ending)?;
    writeln!(text, "steps {}", journey.steps)?;
    push_counts(&mut text, journey.lines.as_slice())?;
    writeln!(text, "sum {}", sum(journey.state.memory.as_slice()))?;
    Ok(text.into_bytes())
}

/// The kinds of lines that are counted.
#[derive(Clone, Copy, Debug, PartialEq, Eq)]
pub(crate) enum Kind {
    Profile,
    Unfit,
    Illegal,
    Held,
    Commit,
    Rollback,
    Plain,
}

impl Kind {
    /// Whether a line is of this kind.
    fn has(self, line: &Line) -> bool
        ensures { result ≡ is_of self line.now }
    {
        match self {
            Kind::Profile => matches!(line, Line::Profile { .. }),
            Kind::Unfit => matches!(line, Line::Unfit { .. }),
            Kind::Illegal => matches!(line, Line::Illegal { .. }),
            Kind::Held => matches!(line, Line::Held { .. }),
            Kind::Commit => matches!(line, Line::Commit { .. }),
            Kind::Rollback => matches!(line, Line::Rollback { .. }),
            Kind::Plain => matches!(line, Line::Plain { .. }),
        }
    }

    /// How many lines are of this kind.
    fn count(self, lines: &[Line]) -> usize
        ensures { result ≡ count_by (is_of self) lines.now }
    {
        lines.iter().filter(|line| self.has(line)).count()
    }
}

/// Writes how many lines of each kind there are.
fn push_counts(text: &mut String, lines: &[Line]) -> Result<(), AllocError>
    ensures { OnOk result (string_bytes text.new ≡ string_bytes text.old ++ counts_line lines.now) }
{
    push_foretold(text, lines)?;
    push_ran(text, lines)
}

/// Writes how many profiles there are, and how many lines that say why turns weren't foretold.
fn push_foretold(text: &mut String, lines: &[Line]) -> Result<(), AllocError>
    ensures { OnOk result (string_bytes text.new ≡ string_bytes text.old ++ summaries.foretold lines.now) }
{
    write!(
        text,
        "profiles {} unfits {} illegals {} helds {}",
        Kind::Profile.count(lines),
        Kind::Unfit.count(lines),
        Kind::Illegal.count(lines),
        Kind::Held.count(lines)
    )
}

/// Writes how many chunks there are of each kind, and ends the line.
fn push_ran(text: &mut String, lines: &[Line]) -> Result<(), AllocError>
    ensures { OnOk result (string_bytes text.new ≡ string_bytes text.old ++ summaries.ran lines.now) }
{
    writeln!(
        text,
        " commits {} rollbacks {} plains {}",
        Kind::Commit.count(lines),
        Kind::Rollback.count(lines),
        Kind::Plain.count(lines)
    )
}

/// The exact sum of words.
fn sum(words: &[i64]) -> i128
    ensures { result ≡ summaries.sum words.now }
{
    let mut sum = 0;
    for word in words {
        sum += i128::from(*word);
    }
    sum
}
