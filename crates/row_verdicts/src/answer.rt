//! What is said of a line.

use crate::system::System;
use fourier_motzkin::{Ruling, Scan, bounds};
use std::alloc::{AllocError, Global};

/// The largest size of a value after which a range is asked.
const FAR: u128 = 1 << 60;

/// The text for a line: `fault` where it is no system, and else its verdict, with the ranges where it is Maybe.
pub fn answer(alloc: Global, line: &str) -> Result<String, AllocError> {
    let Some(system) = System::read(alloc, line)? else {
        return String::from_str(alloc, "fault");
    };
    let scan = bounds(alloc, &system.rows, system.variables)?;
    match scan.verdict() {
        Ruling::Empty => String::from_str(alloc, "empty"),
        Ruling::Wide => String::from_str(alloc, "wide"),
        Ruling::Maybe => ranges(alloc, &scan),
    }
}

/// `maybe`, and the range of each variable after the least values of those before it. It ends with `none` at the
/// first variable without a range, and with `far` after a least value above 2^60 in size.
fn ranges(alloc: Global, scan: &Scan) -> Result<String, AllocError> {
    let mut text = String::from_str(alloc, "maybe")?;
    let mut point = Vec::new(alloc);
    for level in 0..scan.variables() {
        let Some((least, greatest)) = scan.range(level, &point) else {
            text.push_str(" none")?;
            break;
        };
        let range = format!(in alloc; " {least}..{greatest}")?;
        text.push_str(range.as_str())?;
        if least.unsigned_abs() > FAR {
            text.push_str(" far")?;
            break;
        }
        point.push(least as i64)?;
    }
    Ok(text)
}
