//! What is written for a line.

ghost use Rattle.std.specs.Prelude.{◌≡◌, ◌<◌, ◌≤◌, ◌^◌, ◌≤ℤ◌, pos, length, IfOk, IfSome};
ghost use Rattle.dependence.specs.Legality.{Legal};
ghost use Rattle.nest_lang.specs.Rules.{NestKeeps};

use crate::asked::Asked;
use crate::planned::planned_text;
use domain::{Prediction, launch};
use follow_chunk::Task;
use legality::{Judged, judge};
use nest_lang::{Budget, Nest, Outer};
use nest_text::{NestFile, ReadRefusal, read_nest};
use profile::{FirstProfile, FitEnd, first_profile, fit};
use std::alloc::{AllocError, Global};
use transform::{Schedule, schedule_of, standard};

/// The turns of a profile.
const SAMPLE: u64 = 4;

/// The steps of a profile.
const STEPS: u64 = 1 << 20;

/// The text for a line: `fault` where it is of another form or its file has no nest or no reading, and else what is asked.
pub fn answer(alloc: Global, line: &str) -> Result<String, AllocError> {
    let Some((front, text)) = line.split_once(':') else {
        return String::from_str(alloc, "fault");
    };
    let Some(asked) = Asked::read(front) else {
        return String::from_str(alloc, "fault");
    };
    match read_nest(alloc, text.as_bytes()) {
        Ok(file) => file_text(alloc, asked, &file),
        Err(ReadRefusal::Text(fault)) => format!(in alloc; "refused {} {:?}", fault.at, fault.what),
        Err(ReadRefusal::NoMemory) => Err(AllocError),
    }
}

/// The text for the first nest of a file.
fn file_text(alloc: Global, asked: Asked, file: &NestFile) -> Result<String, AllocError>
    requires from { pos 0 ≤ℤ asked.chunk.first }
    requires to { asked.chunk.first ≤ℤ pos (2 ^ 32) }
    requires some { pos 1 ≤ℤ asked.chunk.turns }
    requires most { asked.chunk.turns ≤ℤ pos 1024 }
{
    let Some(nest) = file.nest(0) else {
        return String::from_str(alloc, "fault");
    };
    match nest.depth() {
        1 => nest_text::<1>(alloc, asked, file, nest),
        2 => nest_text::<2>(alloc, asked, file, nest),
        3 => nest_text::<3>(alloc, asked, file, nest),
        4 => nest_text::<4>(alloc, asked, file, nest),
        5 => nest_text::<5>(alloc, asked, file, nest),
        6 => nest_text::<6>(alloc, asked, file, nest),
        _ => String::from_str(alloc, "fault"),
    }
}

/// The text for a nest of D loops, whose first turns are profiled.
fn nest_text<const D: usize>(
    alloc: Global,
    asked: Asked,
    file: &NestFile,
    nest: &Nest,
) -> Result<String, AllocError>
    requires depth { 1 ≤ D }
    requires few { D < 7 }
    requires loops { length nest.now.loops ≡ D }
    requires keeps { NestKeeps (length file.now.scalars) nest.now.loops }
    requires from { pos 0 ≤ℤ asked.chunk.first }
    requires to { asked.chunk.first ≤ℤ pos (2 ^ 32) }
    requires some { pos 1 ≤ℤ asked.chunk.turns }
    requires most { asked.chunk.turns ≤ℤ pos 1024 }
{
    let scalars = file.file().scalars.len();
    if scalars > 16 {
        return String::from_str(alloc, "fault");
    }
    let mut state = file.start(alloc)?;
    let steps = Budget {
        left: STEPS,
        used: 0,
    };
    let FirstProfile::Whole(samples) = first_profile(alloc, nest, &mut state, steps, SAMPLE)? else {
        return String::from_str(alloc, "nothing to fit");
    };
    match fit::<D>(alloc, nest, scalars as u8, &samples) {
        Ok(pred) => {
            let fitted = Fitted {
                nest,
                pred: &pred,
                scalars: scalars as u8,
                words: state.memory.len() as u64,
            };
            let candidates = candidates(alloc, file)?;
            fitted_text(alloc, asked, &fitted, &candidates)
        }
        Err(FitEnd::Unfit(_)) => String::from_str(alloc, "no fit"),
        Err(FitEnd::NoMemory) => Err(AllocError),
    }
}

/// A nest with what its first turns fit to, and the numbers of scalars and of words of its file.
#[derive(Clone, Copy)]
struct Fitted<'a, const D: usize> {
    nest: &'a Nest,
    pred: &'a Prediction<D>,
    scalars: u8,
    words: u64,
}

/// The text for a nest with a prediction, in the order of its first legal candidate.
fn fitted_text<const D: usize>(
    alloc: Global,
    asked: Asked,
    fitted: &Fitted<'_, D>,
    candidates: &[Schedule<D>],
) -> Result<String, AllocError>
    requires depth { 1 ≤ D }
    requires few { D < 7 }
    requires from { pos 0 ≤ℤ asked.chunk.first }
    requires to { asked.chunk.first ≤ℤ pos (2 ^ 32) }
    requires some { pos 1 ≤ℤ asked.chunk.turns }
    requires most { asked.chunk.turns ≤ℤ pos 1024 }
{
    let Some(schedule) = first_legal(alloc, fitted.pred, candidates, asked.chunk.turns)? else {
        return String::from_str(alloc, "no legal candidate");
    };
    let Ok(_) = launch(fitted.pred, asked.chunk, fitted.words) else {
        return String::from_str(alloc, "held");
    };
    let outer = Outer {
        lower: 0,
        next: asked.chunk.first,
        left: None,
    };
    let task = Task {
        nest: fitted.nest,
        pred: fitted.pred,
        scalars: fitted.scalars,
        outer,
        chunk: asked.chunk,
    };
    planned_text(alloc, asked, &task, schedule, fitted.words)
}

/// The first of some candidates that is legal for chunks of so many turns.
fn first_legal<'a, const D: usize>(
    alloc: Global,
    pred: &Prediction<D>,
    candidates: &'a [Schedule<D>],
    turns: i64,
) -> Result<Option<&'a Schedule<D>>, AllocError>
    requires { D < 7 }
    ensures { IfOk result (λ found. IfSome found (λ schedule. Legal pred.now schedule.now turns)) }
{
    for candidate in candidates {
        if let Judged::Legal = judge(alloc, pred, candidate, turns)? {
            return Ok(Some(candidate));
        }
    }
    Ok(None)
}

/// The schedules of the candidates, or of the standard ones where there are none.
fn candidates<const D: usize>(
    alloc: Global,
    file: &NestFile,
) -> Result<Vec<Schedule<D>>, AllocError>
    requires depth { 1 ≤ D }
    requires few { D < 7 }
{
    let mut found = Vec::new(alloc);
    let scripts = file.scripts(0).unwrap_or(0);
    for number in 0..scripts {
        if let Some(script) = file.script(0, number)
            && let Some(schedule) = schedule_of(script)
        {
            found.push(schedule)?;
        }
    }
    if scripts == 0 {
        for number in 1..6u8 {
            if let Some(schedule) = standard(number) {
                found.push(schedule)?;
            }
        }
    }
    Ok(found)
}
