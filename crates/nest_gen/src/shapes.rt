//! A file by its seed, shape and size.
ghost use Rattle.std.specs.Prelude.{◌≡◌, ◌≤◌, IfOk, Ok, string_bytes};
ghost use Rattle.nest_grammar.specs.Contents.{reading};
ghost use Rattle.nest_gen.specs.Generated.{text_of};

use crate::texts;
use nest_text::{NestFile, ReadRefusal, read_nest};
use std::alloc::{AllocError, Global};

/// What a generated file is.
#[derive(Clone, Copy, Debug, PartialEq, Eq)]
pub enum Shape {
    /// A loop that copies words and adds a number.
    Copy,
    /// A `while` that follows a linked list.
    List,
    /// A sweep over a square grid.
    Grid,
}

/// The file that the text of this seed, shape and size reads as. The size is 1 to 256. Each such text reads as a
/// file.
pub fn generate(alloc: Global, seed: u32, shape: Shape, size: u32) -> Result<NestFile, AllocError>
    requires from { 1 ≤ size }
    requires to { size ≤ 256 }
    ensures { IfOk result (λ file. reading (text_of shape seed size) ≡ Ok file) }
{
    let text = text(alloc, seed, shape, size)?;
    match read_nest(alloc, text.as_bytes()) {
        Ok(file) => Ok(file),
        Err(ReadRefusal::NoMemory) => Err(AllocError),
        Err(ReadRefusal::Text(_)) => unreachable!(),
    }
}

/// The text of this seed, shape and size.
fn text(alloc: Global, seed: u32, shape: Shape, size: u32) -> Result<String, AllocError>
    requires from { 1 ≤ size }
    requires to { size ≤ 256 }
    ensures { IfOk result (λ text. string_bytes text ≡ text_of shape seed size) }
{
    match shape {
        Shape::Copy => texts::copy(alloc, seed, size),
        Shape::List => texts::list(alloc, seed, size),
        Shape::Grid => texts::grid(alloc, seed, size),
    }
}
