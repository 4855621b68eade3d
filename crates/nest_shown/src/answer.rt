//! What is written for a line.

ghost use Rattle.std.specs.Prelude.{◌≤◌, length};

use crate::blocks::write_blocks;
use crate::parts::write_parts;
use crate::record::{Record, write_record};
use crate::turns::in_two;
use nest_lang::State;
use nest_text::{NestFile, ReadRefusal, read_nest};
use std::alloc::{AllocError, Global};

/// A limit of steps, and two numbers of turns.
#[derive(Clone, Copy)]
pub struct Asked {
    pub steps: u32,
    pub first: u64,
    pub second: u64,
}

/// What numbers ask for, or None where they are not three.
fn read_asked(numbers: &str) -> Option<Asked> {
    let mut words = numbers.split(' ');
    let steps = words.next()?.parse::<u32>().ok()?;
    let first = words.next()?.parse::<u64>().ok()?;
    let second = words.next()?.parse::<u64>().ok()?;
    Some(Asked {
        steps,
        first,
        second,
    })
}

/// The text for a line: `fault` where it doesn't begin with three numbers and a colon, the first fault of its text
/// where that has no reading, and else what is shown of the file.
pub fn answer(alloc: Global, line: &str) -> Result<String, AllocError> {
    let Some((numbers, text)) = line.split_once(':') else {
        return String::from_str(alloc, "fault");
    };
    let Some(asked) = read_asked(numbers) else {
        return String::from_str(alloc, "fault");
    };
    match read_nest(alloc, text.as_bytes()) {
        Ok(file) => file_text(alloc, &file, asked),
        Err(ReadRefusal::Text(fault)) => format!(in alloc; "refused {} {:?}", fault.at, fault.what),
        Err(ReadRefusal::NoMemory) => String::from_str(alloc, "no memory"),
    }
}

/// What is shown of a file.
fn file_text(alloc: Global, file: &NestFile, asked: Asked) -> Result<String, AllocError> {
    let mut text = String::new(alloc);
    write_blocks(alloc, file, &mut text)?;
    write_parts(alloc, file, &mut text)?;
    let mut state = file.start(alloc)?;
    write_run(alloc, file, &mut state, asked, &mut text)?;
    write_state(alloc, &state, &mut text)?;
    Ok(text)
}

/// Runs two lots of turns, and writes how they ended (with the number of the next turn and the steps) and what the watch
/// was shown.
fn write_run(
    alloc: Global,
    file: &NestFile,
    state: &mut State,
    asked: Asked,
    text: &mut String,
) -> Result<(), AllocError>
    requires { length state.old.scalars ≤ 256 }
{
    let mut record = Record::new(alloc);
    let end = in_two(file, state, &mut record, asked);
    text.push_str(format!(in alloc; "  run {end:?}\n")?.as_str())?;
    write_record(alloc, &record, text)
}

/// Writes the scalars and the first 12 words.
fn write_state(alloc: Global, state: &State, text: &mut String) -> Result<(), AllocError> {
    text.push_str("  left")?;
    for scalar in state.scalars.iter() {
        text.push_str(format!(in alloc; " {scalar}")?.as_str())?;
    }
    text.push_str(" over")?;
    for word in state.memory.iter().take(12) {
        text.push_str(format!(in alloc; " {word}")?.as_str())?;
    }
    Ok(())
}
