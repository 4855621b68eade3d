//! What a generated file is made of.

ghost use Rattle.std.specs.Prelude.{◌≡◌, map};
ghost use Rattle.command_line.specs.Invocations.{Finds};
ghost use Rattle.command_line.specs.Modes.{IsRecipe, shape_word};

use crate::number::number_in;

/// What a generated file is.
#[derive(Clone, Copy, Debug, PartialEq, Eq)]
pub enum Shape {
    /// A loop that copies words and adds a number.
    Copy,
    /// A `while` that follows a linked list.
    List,
    /// A sweep over a square grid.
    Grid,
}

impl Shape {
    /// The shape of a word, if one has it.
    pub(crate) fn of_word(word: &str) -> Option<Shape>
        ensures { Finds result (λ shape. word.now ≡ shape_word shape) }
    {
        match word {
            "copy" => Some(Shape::Copy),
            "list" => Some(Shape::List),
            "grid" => Some(Shape::Grid),
            _ => None,
        }
    }

    /// The word of this shape.
    pub fn word(self) -> &'static str
        ensures { result.now ≡ shape_word self }
    {
        match self {
            Shape::Copy => "copy",
            Shape::List => "list",
            Shape::Grid => "grid",
        }
    }
}

/// What a generated file is made of.
#[derive(Clone, Copy, Debug, PartialEq, Eq)]
pub struct Recipe {
    /// Where the drawn numbers begin.
    pub seed: u32,
    pub shape: Shape,
    /// How large the file is, 1 to 256.
    pub size: u32,
}

impl Recipe {
    /// The recipe that SEED, KIND and SIZE are, if these texts are one.
    pub(crate) fn of_words(texts: &[&str]) -> Option<Recipe>
        ensures { Finds result (IsRecipe (map (λ text. text.now) texts.now)) }
    {
        let [seed, shape, size] = texts else {
            return None;
        };
        Some(Recipe {
            seed: number_in(seed, 0, 4_294_967_295)? as u32,
            shape: Shape::of_word(shape)?,
            size: number_in(size, 1, 256)? as u32,
        })
    }
}
