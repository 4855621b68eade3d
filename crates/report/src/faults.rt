//! The line of a refused text.
ghost use Rattle.std.specs.Prelude.{◌≡◌, IfOk};
ghost use Rattle.report.specs.Faults.{kind_word, refusal_line};

use nest_grammar::{TextFault, TextKind};
use std::alloc::{AllocError, Global};

/// The line `refused AT KIND` of a text with this first fault (docs/LANGUAGE.md, Refusals): the offset in
/// bytes of the token that is wrong, and the word of what is wrong with it. It is
/// refused only where there is no memory for it.
pub fn refusal_text(alloc: Global, fault: &TextFault) -> Result<Vec<u8>, AllocError>
    ensures { IfOk result (λ bytes. bytes.items ≡ refusal_line fault.now) }
{
    let mut text = String::new(alloc);
    writeln!(text, "refused {} {}", fault.at, kind_word(fault.what))?;
    Ok(text.into_bytes())
}

/// The word of a kind of fault.
#[tactic(auto, unfolding(crate::specs::Faults::kind_word))]
fn kind_word(kind: TextKind) -> &'static str
    ensures { result.now ≡ kind_word kind }
{
    match kind {
        TextKind::Long => "Long",
        TextKind::Byte => "Byte",
        TextKind::Number => "Number",
        TextKind::Name => "Name",
        TextKind::Expected => "Expected",
        TextKind::Version => "Version",
        TextKind::Known => "Known",
        TextKind::Unknown => "Unknown",
        TextKind::Fixed => "Fixed",
        TextKind::Many => "Many",
        TextKind::Deep => "Deep",
        TextKind::Range => "Range",
        TextKind::Empty => "Empty",
        TextKind::Script => "Script",
    }
}
