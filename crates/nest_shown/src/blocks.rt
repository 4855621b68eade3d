//! The blocks of a nest.

ghost use Rattle.std.specs.Prelude.{◌≤◌, length};

use nest_lang::{Access, AccessKind, BlockRef, Nest, Part};
use nest_text::NestFile;
use std::alloc::{AllocError, Global};

/// Writes the present blocks of the first nest, and a line for each part of each of its levels.
pub fn write_blocks(alloc: Global, file: &NestFile, text: &mut String) -> Result<(), AllocError> {
    let Some(nest) = file.nest(0) else {
        return Ok(());
    };
    write_present(alloc, nest, text)?;
    for level in 0..8u8 {
        write_level(alloc, file, level, text)?;
    }
    Ok(())
}

/// Writes the present blocks, by their numbers.
fn write_present(alloc: Global, nest: &Nest, text: &mut String) -> Result<(), AllocError>
    requires { length nest.now.loops ≤ 6 }
{
    text.push_str("\n  present")?;
    for number in 0..20 {
        if let Some(block) = nest.present(number) {
            text.push_str(format!(in alloc; " {:?}{}", block.part, block.level)?.as_str())?;
        }
    }
    text.push_str("\n")
}

/// Writes the blocks of a level, where it is there.
fn write_level(
    alloc: Global,
    file: &NestFile,
    level: u8,
    text: &mut String,
) -> Result<(), AllocError> {
    for part in [Part::Head, Part::Pre, Part::Post] {
        write_block(alloc, file, BlockRef { part, level }, text)?;
    }
    Ok(())
}

/// Writes a block with its rank, its number of turn numbers, its number of statements and its accesses: L a load and S
/// a store, each with its number. Nothing where there is no such level.
fn write_block(
    alloc: Global,
    file: &NestFile,
    block: BlockRef,
    text: &mut String,
) -> Result<(), AllocError> {
    let Some(nest) = file.nest(0) else {
        return Ok(());
    };
    let accesses = nest.accesses(block);
    if nest.head(block.level).is_none() {
        return Ok(());
    }
    text.push_str(block_text(alloc, nest, block)?.as_str())?;
    write_accesses(alloc, accesses.as_slice(), text)
}

/// Writes accesses, and ends the line.
fn write_accesses(alloc: Global, accesses: &[Access], text: &mut String) -> Result<(), AllocError> {
    for access in accesses {
        let kind = match access.kind {
            AccessKind::Load => "L",
            AccessKind::Store => "S",
        };
        text.push_str(format!(in alloc; " {kind}{}", access.number)?.as_str())?;
    }
    text.push_str("\n")
}

/// A block with its rank, its number of turn numbers and its number of statements.
fn block_text(alloc: Global, nest: &Nest, block: BlockRef) -> Result<String, AllocError>
    requires { length nest.now.loops ≤ 6 }
{
    let statements = match nest.statements(block) {
        Some(found) => Some(found.len()),
        None => None,
    };
    format!(in alloc;
        "  {:?}{} rank {:?} counters {:?} statements {statements:?}:",
        block.part,
        block.level,
        nest.rank(block),
        nest.counters(block)
    )
}
