//! Mode `gen`: a summary of the journey of a generated file.

ghost use Rattle.std.specs.Prelude.{◌≡◌, ◌≤◌, IfOk, Ok};
ghost use Rattle.nest_grammar.specs.declared.file.File.{File};
ghost use Rattle.nest_grammar.specs.Contents.{reading};
ghost use Rattle.nest_top.specs.HandedOver.{ReadingHanded};
ghost use Rattle.nest_top.specs.Answers as answers;
ghost use Rattle.nest_top.specs.Answers.{AreInRange, IsSummaryOf, text_made};

use crate::answer::Answer;
use crate::options::journey_options;
use crate::plain::status_of;
use command_line::{Options, Recipe, Shape};
use controller::journey;
use crew::Crew;
use nest_gen::generate;
use report::summary_text;
use std::alloc::{AllocError, Global};

/// The summary of the journey of the file that is made by a recipe, with these options.
pub(crate) fn generated<C: Crew>(
    alloc: Global,
    options: &Options,
    recipe: Recipe,
    crew: &mut C,
) -> Result<Answer, AllocError>
    requires options { AreInRange options.now }
    requires from { 1 ≤ recipe.size }
    requires to { recipe.size ≤ 256 }
    ensures answer { IfOk result (λ answer. (file : File) × (reading (text_made recipe) ≡ Ok file) × IsSummaryOf recipe options.now file answer.bytes.items answer.status) }
    ensures handed { ReadingHanded options.now (reading (text_made recipe)) (C.handed crew.old) (C.handed crew.new) result }
{
    let file = generate(alloc, recipe.seed, shape_of(recipe.shape), recipe.size)?;
    let journey = journey(alloc, &file, &journey_options(options), crew)?;
    let mut bytes = heading(alloc, recipe)?;
    bytes.extend_from_slice(summary_text(alloc, &journey)?.as_slice())?;
    Ok(Answer {
        bytes,
        status: status_of(journey.ending),
    })
}

/// The shape of a generated file.
fn shape_of(shape: Shape) -> nest_gen::Shape
    ensures { result ≡ answers.shape_of shape }
{
    match shape {
        Shape::Copy => nest_gen::Shape::Copy,
        Shape::List => nest_gen::Shape::List,
        Shape::Grid => nest_gen::Shape::Grid,
    }
}

/// The line that names a generated file.
fn heading(alloc: Global, recipe: Recipe) -> Result<Vec<u8>, AllocError>
    ensures { IfOk result (λ bytes. bytes.items ≡ answers.heading recipe) }
{
    let Recipe { seed, shape, size } = recipe;
    let mut text = String::new(alloc);
    writeln!(text, "gen {seed} {} {size}", shape.word())?;
    Ok(text.into_bytes())
}
