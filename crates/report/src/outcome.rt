//! The outcome part: how a run ended, and what it left.

ghost use Rattle.std.specs.Prelude.{◌≡◌, ◌≤◌, ◌++◌, length, flat_map, OnOk, IfOk, string_bytes};
ghost use Rattle.std.specs.List.{zip};
ghost use Rattle.nest_text.specs.Files.{scalar_names};
ghost use Rattle.report.specs.Outcomes.{ending_line, scalar_line, IsOutcome};

use crate::runs::push_words;
use nest_lang::{Ending, State, Trap};
use nest_text::NestFile;
use std::alloc::{AllocError, Global};

/// The outcome of a run of a file that left this state (docs/DEFINITIONS.md, Outcomes): the line of its ending,
/// `scalar NAME VALUE` for each scalar in the order of the file, `words FIRST LAST VALUE` for each
/// longest run of equal words that aren't 0, ascending, and `steps N`. The state has the scalars of the
/// file, at most 16. It is refused only where there is no memory for it.
pub fn outcome_text(
    alloc: Global,
    file: &NestFile,
    state: &State,
    ending: &Ending,
    steps: u64,
) -> Result<Vec<u8>, AllocError>
    requires named { length state.now.scalars ≡ length file.now.scalars }
    requires few { length state.now.scalars ≤ 16 }
    ensures { IfOk result (λ bytes.
        IsOutcome (scalar_names file.now) state.now ending.now steps bytes.items) }
{
    let mut text = String::new(alloc);
    push_ending(&mut text, ending)?;
    push_scalars(&mut text, file, state.scalars.as_slice())?;
    push_words(&mut text, state.memory.as_slice())?;
    writeln!(text, "steps {steps}")?;
    Ok(text.into_bytes())
}

/// Writes how the run ended.
pub(crate) fn push_ending(text: &mut String, ending: &Ending) -> Result<(), AllocError>
    ensures { OnOk result (string_bytes text.new ≡ string_bytes text.old ++ ending_line ending.now) }
{
    match *ending {
        Ending::Ended => writeln!(text, "ended"),
        Ending::Trapped(Trap::Overflow) => writeln!(text, "trapped overflow"),
        Ending::Trapped(Trap::ZeroDivisor) => writeln!(text, "trapped zero"),
        Ending::Trapped(Trap::Outside(address)) => writeln!(text, "trapped outside {address}"),
        Ending::Limited => writeln!(text, "limited"),
    }
}

/// Writes a line for each scalar of a file and its value, in order.
fn push_scalars(text: &mut String, file: &NestFile, values: &[i64]) -> Result<(), AllocError>
    requires named { length values.now ≡ length file.now.scalars }
    requires few { length values.now ≤ 16 }
    ensures { OnOk result (string_bytes text.new ≡ string_bytes text.old
        ++ flat_map scalar_line (zip (scalar_names file.now) values.now)) }
{
    'scalars: for (number, value) in values.iter().enumerate() {
        let Some(name) = file.scalar_name(number as u8) else {
            unreachable!()
        };
        writeln!(text, "scalar {name} {value}")?;
    }
    Ok(())
}
