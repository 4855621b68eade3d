//! A text that is written piece by piece.

ghost use Rattle.std.specs.Prelude.{◌≡◌, ◌++◌, ◌∷◌, [], ◌*◌, ◌+◌, replicate, OnOk, IfOk};
ghost use Rattle.std.specs.Fmt.{decimal, signed_decimal};
ghost use Rattle.nest_tokens.specs.Tokens.{spelling};
ghost use Rattle.nest_tokens.specs.Spellings.{name_text};
ghost use Rattle.canonical.specs.Pieces.{spaced, text_of};

use nest_tokens::{Mark, Name};
use std::alloc::{AllocError, Global};
use std::marker::Model;

/// What was written so far.
#[derive(Drop)]
pub struct Page {
    alloc: Global,
    bytes: Vec<u8>,
}

impl Model for Page {
    ghost use Rattle.std.specs.Prelude.{ℕ, List};

    ghost Value = { List ℕ };

    ghost view = { λ p. p.bytes.items };
}

impl Page {
    /// Nothing is written yet.
    pub fn new(alloc: Global) -> Page
        ensures { result ≡ [] }
    {
        Page {
            alloc,
            bytes: Vec::new(alloc),
        }
    }

    /// All that was written.
    pub fn into_bytes(self) -> Vec<u8>
        ensures { result.items ≡ self }
    {
        self.bytes
    }

    /// Writes these bytes.
    pub fn text(&mut self, text: &[u8]) -> Result<(), AllocError>
        ensures { OnOk result (self.new ≡ self.old ++ text.now) }
    {
        self.bytes.extend_from_slice(text)?;
        Ok(())
    }

    /// Writes a sign or a keyword.
    pub fn mark(&mut self, mark: Mark) -> Result<(), AllocError>
        ensures { OnOk result (self.new ≡ self.old ++ spelling mark) }
    {
        self.text(mark.spelling())
    }

    /// Writes one space.
    pub fn space(&mut self) -> Result<(), AllocError>
        ensures { OnOk result (self.new ≡ self.old ++ 32 ∷ []) }
    {
        self.text(b" ")
    }

    /// Writes a sign or a word with one space on each side.
    #[tactic(auto, using(crate::proofs::PieceLaws::texts))]
    pub fn spaced(&mut self, mark: Mark) -> Result<(), AllocError>
        ensures { OnOk result (self.new ≡ self.old ++ text_of (spaced mark)) }
    {
        self.space()?;
        self.mark(mark)?;
        self.space()
    }

    /// Writes a name.
    pub fn name(&mut self, name: Name) -> Result<(), AllocError>
        ensures { OnOk result (self.new ≡ self.old ++ name_text name) }
    {
        self.text(name.text())
    }

    /// Writes a number.
    pub fn number(&mut self, number: u64) -> Result<(), AllocError>
        ensures { OnOk result (self.new ≡ self.old ++ decimal number) }
    {
        let digits = format!(in self.alloc; "{number}")?;
        self.text(digits.as_bytes())
    }

    /// Writes a number with its sign.
    pub fn signed(&mut self, number: i64) -> Result<(), AllocError>
        ensures { OnOk result (self.new ≡ self.old ++ signed_decimal number) }
    {
        let digits = format!(in self.alloc; "{number}")?;
        self.text(digits.as_bytes())
    }

    /// Begins a line within so many open braces.
    pub fn indent(&mut self, depth: usize) -> Result<(), AllocError>
        ensures { OnOk result (self.new ≡ self.old ++ replicate (2 * depth) 32) }
    {
        for _brace in 0..depth {
            self.text(b"  ")?;
        }
        Ok(())
    }

    /// Ends a line.
    pub fn newline(&mut self) -> Result<(), AllocError>
        ensures { OnOk result (self.new ≡ self.old ++ 10 ∷ []) }
    {
        self.text(b"\n")
    }
}

/// One more open brace. An indent of so many spaces finds no memory.
pub fn inside(depth: usize) -> Result<usize, AllocError>
    ensures { IfOk result (λ inner. inner ≡ depth + 1) }
{
    match depth.checked_add(1) {
        Some(inner) => Ok(inner),
        None => Err(AllocError),
    }
}
