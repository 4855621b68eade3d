//! The reading of a whole text.

ghost use Rattle.std.specs.Prelude.{◌≡◌};
ghost use Rattle.nest_grammar.specs.Contents.{reading};
ghost use Rattle.nest_text.specs.Answers.{Answers};

use crate::limits::MOST_BYTES;
use crate::reader::Reader;
use crate::refusal::ReadRefusal;
use nest_grammar::{File, TextFault, TextKind};
use std::alloc::Global;

/// Reads a text by the productions, as plain data. A text of more than 1,048,576 bytes is too long.
#[tactic(auto, unfolding(nest_grammar::specs::Contents::reading))]
pub fn read_whole(alloc: Global, text: &[u8]) -> Result<File, ReadRefusal>
    ensures { Answers result (reading text.now) }
{
    if text.len() > MOST_BYTES {
        return Err(ReadRefusal::Text(TextFault {
            at: MOST_BYTES as u64,
            what: TextKind::Long,
        }));
    }
    Reader::new(alloc, text).contents()
}
