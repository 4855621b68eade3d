//! What is written for a line.

use crate::shown::shown;
use nest_text::{NestFile, ReadRefusal, read_nest};
use std::alloc::{AllocError, Global};

/// How many turns are profiled, how many the chunk behind them has, and how many steps are left for these.
#[derive(Clone, Copy)]
pub struct Asked {
    pub sample: u32,
    pub turns: u32,
    pub left: u32,
}

/// What numbers ask for, or None where they are not three.
fn read_asked(numbers: &str) -> Option<Asked> {
    let mut words = numbers.split(' ');
    let sample = words.next()?.parse::<u32>().ok()?;
    let turns = words.next()?.parse::<u32>().ok()?;
    let left = words.next()?.parse::<u32>().ok()?;
    Some(Asked {
        sample,
        turns,
        left,
    })
}

/// The text for a line: `fault` where it doesn't begin with three numbers and a colon, the first fault of its text
/// where that has no reading, and else what is shown of the file.
pub fn answer(alloc: Global, line: &str) -> Result<String, AllocError> {
    let Some((numbers, text)) = line.split_once(':') else {
        return String::from_str(alloc, "fault");
    };
    let Some(asked) = read_asked(numbers) else {
        return String::from_str(alloc, "fault");
    };
    match read_nest(alloc, text.as_bytes()) {
        Ok(file) => file_text(alloc, &file, asked),
        Err(ReadRefusal::Text(fault)) => format!(in alloc; "refused {} {:?}", fault.at, fault.what),
        Err(ReadRefusal::NoMemory) => String::from_str(alloc, "no memory"),
    }
}

/// What is shown of a file.
fn file_text(alloc: Global, file: &NestFile, asked: Asked) -> Result<String, AllocError> {
    let Some(nest) = file.nest(0) else {
        return String::from_str(alloc, "no nest");
    };
    match nest.loops.len() {
        1 => shown::<1>(alloc, file, nest, asked),
        2 => shown::<2>(alloc, file, nest, asked),
        3 => shown::<3>(alloc, file, nest, asked),
        _ => String::from_str(alloc, "deeper"),
    }
}
