//! The writer of files.

ghost use Rattle.std.specs.Prelude.{◌≡◌, ◌≤◌, ◌++◌, length, Ok, OnOk, IfOk};
ghost use Rattle.nest_grammar.specs.Contents.{reading};
ghost use Rattle.nest_grammar.specs.Limits.{most_bytes};
ghost use Rattle.std.specs.List.{flat_map};
ghost use Rattle.canonical.specs.Pieces.{text_of};
ghost use Rattle.canonical.specs.Scripts.{candidate_line};
ghost use Rattle.canonical.specs.Contents.{version_number, version_line, scalar_line, memory_line, next_value, value_list, item_line, unit_lines, pieces, canonical};

use crate::labels::Labels;
use crate::loops::write_loops;
use crate::page::Page;
use crate::script::{write_candidate, write_operand, write_signed};
use nest_grammar::{File, Item, NestUnit, Scalar, Version};
use nest_lang::Command;
use nest_text::NestFile;
use nest_tokens::Mark;
use sqlite_items::Items;
use std::alloc::{AllocError, Global};

/// The canonical text of a file that was read (docs/DEFINITIONS.md, Canonical text): one line each for the
/// version, each scalar, the memory, each item, and for each nest its loops and then its candidates. Where it
/// has at most 1,048,576 bytes it reads as the same file. It is refused only where there is no memory for it.
pub fn write_nest(alloc: Global, file: &NestFile) -> Result<Vec<u8>, AllocError>
    ensures canonical { IfOk result (λ bytes. bytes.items ≡ canonical file.now) }
    ensures read { IfOk result (λ bytes. length bytes.items ≤ most_bytes → reading bytes.items ≡ Ok file.now) }
{
    write_file(alloc, file.file())
}

/// The canonical text of a file.
#[tactic(auto, unfolding(crate::specs::Contents::canonical))]
pub(crate) fn write_file(alloc: Global, file: &File) -> Result<Vec<u8>, AllocError>
    ensures { IfOk result (λ bytes. bytes.items ≡ canonical file.now) }
{
    let mut page = Page::new(alloc);
    write_all(file, &mut page)?;
    Ok(page.into_bytes())
}

/// Writes a file.
#[tactic(auto, unfolding(crate::specs::Contents::pieces), using(crate::proofs::PieceLaws::texts))]
fn write_all(file: &File, page: &mut Page) -> Result<(), AllocError>
    ensures { OnOk result (page.new ≡ page.old ++ text_of (pieces file.now)) }
{
    write_version(file.version, page)?;
    write_scalars(file.scalars.as_slice(), page)?;
    write_memory(file.words as u64, page)?;
    write_items(file.items.as_slice(), page)?;
    write_units(file.scalars.as_slice(), file.units.as_slice(), page)
}

fn number_of(version: Version) -> u64
    ensures { result ≡ version_number version }
{
    match version {
        Version::One => 1,
        Version::Two => 2,
    }
}

/// Writes the line of the version.
#[tactic(auto, unfolding(crate::specs::Contents::version_line), using(crate::proofs::PieceLaws::texts))]
fn write_version(version: Version, page: &mut Page) -> Result<(), AllocError>
    ensures { OnOk result (page.new ≡ page.old ++ text_of (version_line version)) }
{
    page.mark(Mark::Nest)?;
    write_operand(number_of(version), page)?;
    page.newline()
}

/// Writes the line of a scalar.
#[tactic(auto, unfolding(crate::specs::Contents::scalar_line), using(crate::proofs::PieceLaws::texts))]
fn write_scalar(scalar: &Scalar, page: &mut Page) -> Result<(), AllocError>
    ensures { OnOk result (page.new ≡ page.old ++ text_of (scalar_line scalar.now)) }
{
    page.mark(Mark::Scalar)?;
    page.space()?;
    page.name(scalar.name)?;
    page.spaced(Mark::Assign)?;
    page.signed(scalar.value)?;
    page.newline()
}

/// Writes the lines of scalars.
#[tactic(auto, using(crate::proofs::PieceLaws::lists))]
fn write_scalars(scalars: &[Scalar], page: &mut Page) -> Result<(), AllocError>
    ensures { OnOk result (page.new ≡ page.old ++ text_of (flat_map scalar_line scalars.now)) }
{
    for scalar in scalars {
        write_scalar(scalar, page)?;
    }
    Ok(())
}

/// Writes the line of the memory.
#[tactic(auto, unfolding(crate::specs::Contents::memory_line), using(crate::proofs::PieceLaws::texts))]
fn write_memory(words: u64, page: &mut Page) -> Result<(), AllocError>
    ensures { OnOk result (page.new ≡ page.old ++ text_of (memory_line words)) }
{
    page.mark(Mark::Memory)?;
    write_operand(words, page)?;
    page.newline()
}

/// Writes a value behind a comma.
#[tactic(auto, using(crate::proofs::PieceLaws::texts))]
fn write_next(value: &i64, page: &mut Page) -> Result<(), AllocError>
    ensures { OnOk result (page.new ≡ page.old ++ text_of (next_value value.now)) }
{
    page.mark(Mark::Comma)?;
    write_signed(*value, page)
}

/// Writes values, each behind a comma.
#[tactic(auto, using(crate::proofs::PieceLaws::lists))]
fn write_others(values: &[i64], page: &mut Page) -> Result<(), AllocError>
    ensures { OnOk result (page.new ≡ page.old ++ text_of (flat_map next_value values.now)) }
{
    for value in values {
        write_next(value, page)?;
    }
    Ok(())
}

/// Writes the values of words.
#[tactic(auto, unfolding(crate::specs::Contents::value_list), using(crate::proofs::PieceLaws::texts))]
fn write_values(values: &[i64], page: &mut Page) -> Result<(), AllocError>
    ensures { OnOk result (page.new ≡ page.old ++ text_of (value_list values.now)) }
{
    let Some((first, others)) = values.split_first() else {
        return Ok(());
    };
    write_signed(*first, page)?;
    write_others(others, page)
}

/// Writes the line of an item.
#[tactic(auto, using(crate::proofs::ItemLaws::items))]
fn write_item(item: &Item, page: &mut Page) -> Result<(), AllocError>
    ensures { OnOk result (page.new ≡ page.old ++ text_of (item_line item.now)) }
{
    match item {
        Item::Data { first, values } => {
            page.mark(Mark::Data)?;
            write_operand(*first, page)?;
            page.mark(Mark::Colon)?;
            write_values(values.as_slice(), page)?;
            page.newline()
        }
        Item::Ramp {
            first,
            count,
            stride,
            start,
            growth,
        } => {
            page.mark(Mark::Ramp)?;
            write_operand(*first, page)?;
            write_operand(*count, page)?;
            write_operand(*stride, page)?;
            write_signed(*start, page)?;
            write_signed(*growth, page)?;
            page.newline()
        }
    }
}

/// Writes the lines of items.
#[tactic(auto, using(crate::proofs::PieceLaws::lists))]
fn write_items(items: &[Item], page: &mut Page) -> Result<(), AllocError>
    ensures { OnOk result (page.new ≡ page.old ++ text_of (flat_map item_line items.now)) }
{
    for item in items {
        write_item(item, page)?;
    }
    Ok(())
}

/// Writes the lines of candidates.
#[tactic(auto, using(crate::proofs::PieceLaws::lists))]
fn write_candidates(scripts: &[Items<Command>], page: &mut Page) -> Result<(), AllocError>
    ensures { OnOk result (page.new ≡ page.old ++ text_of (flat_map candidate_line scripts.now)) }
{
    for script in scripts {
        write_candidate(script.as_slice(), page)?;
    }
    Ok(())
}

/// Writes a nest's loops, then its candidates.
#[tactic(auto, unfolding(crate::specs::Contents::unit_lines), using(crate::proofs::PieceLaws::texts))]
fn write_unit(scalars: &[Scalar], unit: &NestUnit, page: &mut Page) -> Result<(), AllocError>
    ensures { OnOk result (page.new ≡ page.old ++ text_of (unit_lines scalars.now unit.now)) }
{
    let labels = Labels {
        scalars,
        loops: unit.names.as_slice(),
        lets: &[],
    };
    write_loops(&labels, 0, unit.nest.loops.as_slice(), page)?;
    write_candidates(unit.scripts.as_slice(), page)
}

/// Writes the nests.
#[tactic(auto, using(crate::proofs::PieceLaws::lists))]
fn write_units(scalars: &[Scalar], units: &[NestUnit], page: &mut Page) -> Result<(), AllocError>
    ensures { OnOk result (page.new ≡ page.old ++ text_of (flat_map (unit_lines scalars.now) units.now)) }
{
    for unit in units {
        write_unit(scalars, unit, page)?;
    }
    Ok(())
}
