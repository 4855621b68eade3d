//! What a line asks.

ghost use Rattle.std.specs.Prelude.{◌≤◌, ◌^◌, ◌≤ℤ◌, pos, IfSome};

use domain::Chunk;

/// What is asked.
#[derive(Clone, Copy)]
pub enum Word {
    /// The numbers of a plan.
    Plan,
    /// The whole plan.
    Show,
    /// The walks over its tiles.
    Walk,
}

impl Word {
    /// The word that is spelled so.
    fn spelled(spelled: &str) -> Option<Word> {
        match spelled {
            "plan" => Some(Word::Plan),
            "show" => Some(Word::Show),
            "walk" => Some(Word::Walk),
            _ => None,
        }
    }
}

/// What is asked of a chunk, and how often.
#[derive(Clone, Copy)]
pub struct Asked {
    pub word: Word,
    pub chunk: Chunk,
    pub times: u32,
}

impl Asked {
    /// What is asked; None where the words are of another form, or there is no such chunk.
    pub fn read(words: &str) -> Option<Asked>
        ensures from { IfSome result (λ asked. pos 0 ≤ℤ asked.chunk.first) }
        ensures to { IfSome result (λ asked. asked.chunk.first ≤ℤ pos (2 ^ 32)) }
        ensures some { IfSome result (λ asked. pos 1 ≤ℤ asked.chunk.turns) }
        ensures most { IfSome result (λ asked. asked.chunk.turns ≤ℤ pos 1024) }
    {
        let mut words = words.split_whitespace();
        let word = Word::spelled(words.next()?)?;
        let first = words.next()?.parse::<u32>().ok()?;
        let turns = words.next()?.parse::<u16>().ok()?;
        let times = words.next()?.parse::<u32>().ok()?;
        if turns < 1 || turns > 1_024 {
            return None;
        }
        let chunk = Chunk {
            first: i64::from(first),
            turns: i64::from(turns),
        };
        Some(Asked { word, chunk, times })
    }
}
