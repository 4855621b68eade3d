//! The parts of a file beside its nests.

use nest_text::NestFile;
use std::alloc::{AllocError, Global};

/// Writes the number of nests, the names of the scalars, and each candidate behind the number of its nest.
pub fn write_parts(alloc: Global, file: &NestFile, text: &mut String) -> Result<(), AllocError> {
    text.push_str(format!(in alloc; "  nests {}, scalars", file.nests())?.as_str())?;
    for number in 0..20u8 {
        if let Some(name) = file.scalar_name(number) {
            text.push_str(" ")?;
            text.push_str(name)?;
        }
    }
    text.push_str("\n")?;
    for nest in 0..10 {
        write_scripts(alloc, file, nest, text)?;
    }
    Ok(())
}

/// Writes the candidates of a nest.
fn write_scripts(
    alloc: Global,
    file: &NestFile,
    nest: usize,
    text: &mut String,
) -> Result<(), AllocError> {
    let Some(scripts) = file.scripts(nest) else {
        return Ok(());
    };
    for number in 0..scripts {
        if let Some(script) = file.script(nest, number) {
            text.push_str(format!(in alloc; "  candidate of {nest}: {script:?}\n")?.as_str())?;
        }
    }
    Ok(())
}
