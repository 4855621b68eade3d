//! Files that were read, and what they give to run.

ghost use Rattle.std.specs.Prelude.{◌≡◌, ◌+◌, ◌≤◌, ◌+ℤ◌, ◌*ℤ◌, pos, true, length, map, option_map, slice_get, FitsSigned, IfOk, IfSome};
ghost use Rattle.std.specs.Int.{w64};
ghost use Rattle.std.specs.List.{All, prefix_len};
ghost use Rattle.nest_lang.specs.Rules.{NestKeeps};
ghost use Rattle.nest_grammar.specs.Contents.{reading, ramp_fits};
ghost use Rattle.nest_grammar.specs.Files.{after_item, after_items, first_memory, first_store, nests_of, set_ramp, set_words};
ghost use Rattle.nest_grammar.specs.Rules.{IsSpelled, KeepsRules, item_fits};
ghost use Rattle.nest_tokens.specs.Spellings.{name_text};
ghost use Rattle.nest_text.specs.Answers.{Answers};
ghost use Rattle.nest_text.specs.Files.{ByGrammar, IsOfText, scalar_names, scripts_of, script_at};

use crate::refusal::ReadRefusal;
use crate::whole::read_whole;
use nest_grammar::{File, Item, Scalar};
use nest_lang::{Command, Nest, State, value_of_turn};
use nest_tokens::Name;
use std::alloc::{AllocError, Global};
use std::marker::Model;

/// What a text gives. Only `read_nest` makes one, so that some text reads as it. It then keeps the rules of
/// files that were read: at most 16 scalars and 1,048,576 words, items that set words of the memory alone, and
/// one to eight nests of one to six loops.
#[derive(Debug, Drop)]
pub struct NestFile {
    file: File,
}

impl Model for NestFile {
    ghost use Rattle.nest_grammar.specs.declared.file.File.{File};
    ghost use Rattle.nest_text.specs.Files.{IsOfText};
    ghost use Rattle.nest_lang.specs.contracts.tree.Expr as expr;
    ghost use Rattle.nest_lang.specs.contracts.tree.Stmt as stmt;
    ghost use Rattle.std.specs.Coded.{codes};

    ghost Value = { File };

    ghost coded = { Prim.hlevel (codes, expr.the_row.coded, stmt.the_row.coded) };

    ghost view = { λ f. f.file };

    ghost invariant = { λ f. IsOfText f.file };
}

/// Reads a text of at most 1,048,576 bytes: the file that it is (docs/DEFINITIONS.md, What a text reads as). `Text`
/// comes exactly where the text has no reading, with the place of its first refused token and the kind of
/// its fault; `NoMemory` where a growth was refused.
pub fn read_nest(alloc: Global, text: &[u8]) -> Result<NestFile, ReadRefusal>
    ensures reading { Answers result (reading text.now) }
    ensures grammar { ByGrammar text.now result }
{
    let file = read_whole(alloc, text)?;
    Ok(NestFile { file })
}

impl NestFile {
    /// The file as plain data. Some text reads as it.
    pub fn file(&self) -> &File
        ensures same { result.now ≡ self.now }
        ensures of_text { IsOfText self.now }
    {
        &self.file
    }

    /// The number of nests: 1 to 8. They run one after another.
    pub fn nests(&self) -> usize
        ensures { result ≡ length (nests_of self.now) }
    {
        self.file.units.len()
    }

    /// A nest, numbered from 0. None exactly where there is no such nest. It has one to six loops, no `for`
    /// with a stride of 0, and a statement in its innermost body; its accesses, its places and the size of its
    /// blocks are those that a text allows.
    pub fn nest(&self, number: usize) -> Option<&Nest>
        ensures nest { option_map (λ nest. nest.now) result ≡ slice_get (nests_of self.now) number }
        ensures rules { IfSome result (λ nest. NestKeeps (length self.now.scalars) nest.now.loops) }
    {
        match self.file.units.get(number) {
            Some(unit) => Some(&unit.nest),
            None => None,
        }
    }

    /// The name of a scalar, numbered from 0 in the order of their declaration. None exactly where there is
    /// no such scalar.
    pub fn scalar_name(&self, number: u8) -> Option<&str>
        ensures { option_map (λ name. name.now) result ≡ slice_get (scalar_names self.now) number }
    {
        match self.file.scalars.get(number as usize) {
            Some(scalar) => Some(text_of_name(&scalar.name)),
            None => None,
        }
    }

    /// The number of candidates of a nest, which is numbered from 0. None exactly where there is no such
    /// nest.
    pub fn scripts(&self, nest: usize) -> Option<usize>
        ensures { result ≡ option_map length (slice_get (scripts_of self.now) nest) }
    {
        match self.file.units.get(nest) {
            Some(unit) => Some(unit.scripts.len()),
            None => None,
        }
    }

    /// The commands of a candidate of a nest, both numbered from 0, in their order. None exactly where there
    /// is no such nest or it has no such candidate.
    pub fn script(&self, nest: usize, number: usize) -> Option<&[Command]>
        ensures { option_map (λ script. script.now) result ≡ script_at self.now nest number }
    {
        match self.file.units.get(nest) {
            Some(unit) => match unit.scripts.get(number) {
                Some(script) => Some(script.as_slice()),
                None => None,
            },
            None => None,
        }
    }

    /// The first memory and scalars: each word is 0 that no item sets, and a later item overrides
    /// (docs/DEFINITIONS.md, Files). It is refused only
    /// where there is no memory for them.
    pub fn start(&self, alloc: Global) -> Result<State, AllocError>
        ensures store { IfOk result (λ state. state ≡ first_store self.now) }
        ensures scalars { IfOk result (λ state. length state.scalars ≤ 16) }
    {
        Ok(State {
            memory: first_memory(alloc, &self.file)?,
            scalars: first_scalars(alloc, self.file.scalars.as_slice())?,
        })
    }
}

/// A name as text: its bytes are ASCII.
fn text_of_name(name: &Name) -> &str
    requires { IsSpelled name.now }
    ensures { result.now ≡ name_text name.now }
{
    let Ok(text) = std::str::from_utf8(name.text()) else {
        unreachable!()
    };
    text
}

/// The first values of scalars.
fn first_scalars(alloc: Global, scalars: &[Scalar]) -> Result<Vec<i64>, AllocError>
    ensures { IfOk result (λ values. values.items ≡ map (λ c. c.value) scalars.now) }
{
    let mut values = Vec::new(alloc);
    for scalar in scalars {
        values.push(scalar.value)?;
    }
    Ok(values)
}

/// The first memory of a file.
#[tactic(auto, unfolding(nest_grammar::specs::Files::first_memory))]
fn first_memory(alloc: Global, file: &File) -> Result<Vec<i64>, AllocError>
    requires { KeepsRules file.now }
    ensures { IfOk result (λ memory. memory.items ≡ first_memory file.now) }
{
    let mut memory = vec![in alloc; 0; file.words]?;
    set_items(file.items.as_slice(), memory.as_mut_slice());
    Ok(memory)
}

/// Sets the words of items, in their order.
fn set_items(items: &[Item], memory: &mut [i64])
    requires { All (λ i. item_fits (length memory.old) i ≡ true) items.now }
    ensures { memory.new ≡ after_items memory.old items.now }
{
    for item in items {
        set_item(item, memory);
    }
}

/// Sets the words of an item.
fn set_item(item: &Item, memory: &mut [i64])
    requires { item_fits (length memory.old) item.now ≡ true }
    ensures { memory.new ≡ after_item memory.old item.now }
{
    match item {
        Item::Data { first, values } => set_words(*first, values.as_slice(), memory),
        Item::Ramp {
            first,
            count,
            stride,
            start,
            growth,
        } => set_ramp(*first, *count, *stride, *start, *growth, memory),
    }
}

/// Sets the words from an address on to these values.
fn set_words(first: u64, values: &[i64], memory: &mut [i64])
    requires { first + length values.now ≤ length memory.old }
    ensures { memory.new ≡ set_words first values.now memory.old }
{
    'values: for (number, value) in values.iter().enumerate() {
        memory[first as usize + number] = *value;
    }
}

/// Sets `count` words, from `first` on and each `stride` behind the last, to values from `start` on that
/// grow by `growth`: those of the name of a `for` from `start` whose stride is `growth`.
fn set_ramp(first: u64, count: u64, stride: u64, start: i64, growth: i64, memory: &mut [i64])
    requires { ramp_fits (length memory.old) first count stride start growth ≡ true }
    ensures { memory.new ≡ set_ramp count first stride start growth memory.old }
{
    'words: for number in 0..count {
        let address = first + stride * number;
        memory[address as usize] = value_of_turn(start, growth, number);
    }
}
