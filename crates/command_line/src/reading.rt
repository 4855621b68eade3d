//! The call that reads the arguments.

ghost use Rattle.std.specs.Prelude.{◌≡◌, IfOk, map, pos, string_bytes};
ghost use Rattle.clap.specs.Words.{found_of, rows_of, kind_of};
ghost use Rattle.command_line.specs.Invocations.{Finds, IsInvocation, IsFoundInvocation, IsFoundMode, HasOptions, HasNumber, usage_line};

use crate::invocation::{Invocation, Mode, Options};
use crate::number::number_in;
use crate::syntax::syntax;
use clap::ArgMatches;
use clap::error::ErrorKind;
use std::alloc::{AllocError, Global};

const USAGE: &str =
    "usage: nestrun plain|run|check|deps|gen [SEED KIND SIZE] [--workers N] [--chunk N] [--sample N] [--steps N]\n";

/// The invocation that the arguments after the program's name are, or None exactly where they are none
/// (docs/DEFINITIONS.md, Invocations).
///
/// Want of memory is a free answer: no clause says when it comes.
pub fn invocation_of(alloc: Global, words: &[String]) -> Result<Option<Invocation>, AllocError>
    ensures { IfOk result (λ found. Finds found (IsInvocation (map string_bytes words.now))) }
{
    match syntax(alloc)?.try_get_matches_from(words) {
        Ok(matches) => Ok(invocation_in(&matches)),
        Err(error) if error.kind() == ErrorKind::OutOfMemory => Err(AllocError),
        Err(_) => Ok(None),
    }
}

/// What is written where the arguments are no invocation: one line, with its newline.
pub fn usage_text() -> &'static str
    ensures { result.now ≡ usage_line }
{
    USAGE
}

/// The invocation that was found in the arguments.
fn invocation_in(matches: &ArgMatches<'_>) -> Option<Invocation>
    ensures { Finds result (IsFoundInvocation (rows_of (found_of matches.now))) }
{
    Some(Invocation {
        mode: mode_in(matches)?,
        options: options_in(matches)?,
    })
}

/// The mode, with the values behind it.
fn mode_in(matches: &ArgMatches<'_>) -> Option<Mode>
    ensures { Finds result (IsFoundMode (rows_of (found_of matches.now))) }
{
    Mode::of_words(matches.get_str("MODE")?, matches.get_strs("ARGS"))
}

/// The options, each with its number in its range.
fn options_in(matches: &ArgMatches<'_>) -> Option<Options>
    ensures { Finds result (HasOptions (rows_of (found_of matches.now))) }
{
    Some(Options {
        workers: number_of(matches, "workers", 1, 64)? as u32,
        chunk: number_of(matches, "chunk", 1, 1024)? as i64,
        sample: number_of(matches, "sample", 2, 64)? as i64,
        steps: number_of(matches, "steps", 0, 4_294_967_296)?,
    })
}

/// The number of an option.
fn number_of(matches: &ArgMatches<'_>, option: &str, least: u64, most: u64) -> Option<u64>
    ensures { Finds result (λ number. HasNumber (rows_of (found_of matches.now)) option.now least most (pos number)) }
{
    number_in(matches.get_str(option)?, least, most)
}
