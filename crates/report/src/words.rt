//! Words of a line: names of blocks, accesses and data, numbers, and what was seen.

ghost use Rattle.std.specs.Prelude.{◌≡◌, ◌≢◌, ◌<◌, ◌++◌, length, map, flat_map, OnOk, IfSome, string_bytes};
ghost use Rattle.std.specs.List.{join_with_byte};
ghost use Rattle.std.specs.Fmt.{signed_decimal};
ghost use Rattle.nest_text.specs.Files.{scalar_names};
ghost use Rattle.report.specs.Words as words;
ghost use Rattle.report.specs.Lines.{scalar_of_what, scalar_of_why, scalar_of_how};

use crate::line::{At, LineUnfit, Spot};
use domain::{HeldWhy, What};
use follow::How;
use fourier_motzkin::Ruling;
use nest_lang::{BlockRef, Part, Trap};
use nest_text::NestFile;
use std::alloc::AllocError;

/// The name of a scalar of the file.
pub fn scalar_name(file: &NestFile, number: u8) -> &str
    requires { number < length file.now.scalars }
    ensures { result.now ≡ words.scalar_name (scalar_names file.now) number }
{
    let Some(name) = file.scalar_name(number) else {
        unreachable!()
    };
    name
}

/// The word of a part of a loop.
#[tactic(auto, unfolding(crate::specs::Words::part_word))]
fn part_word(part: Part) -> &'static str
    ensures { result.now ≡ words.part_word part }
{
    match part {
        Part::Head => "head",
        Part::Pre => "pre",
        Part::Post => "post",
    }
}

/// The word of a side.
pub fn side_word(above: bool) -> &'static str
    ensures { result.now ≡ words.side_word above }
{
    if above { "above" } else { "below" }
}

/// The word of a verdict that refuses.
#[tactic(auto, unfolding(crate::specs::Words::verdict_word))]
pub fn verdict_word(verdict: Ruling) -> &'static str
    requires { verdict ≢ Ruling.Empty }
    ensures { result.now ≡ words.verdict_word verdict }
{
    match verdict {
        Ruling::Maybe => "maybe",
        Ruling::Wide => "wide",
        Ruling::Empty => unreachable!(),
    }
}

/// The word of a condition.
#[tactic(auto, unfolding(crate::specs::Words::condition_word))]
fn condition_word(holds: bool) -> &'static str
    ensures { result.now ≡ words.condition_word holds }
{
    if holds { "1" } else { "0" }
}

/// Writes a block.
#[tactic(auto, unfolding(crate::specs::Words::block_word))]
pub fn push_block(text: &mut String, block: BlockRef) -> Result<(), AllocError>
    ensures { OnOk result (string_bytes text.new ≡ string_bytes text.old ++ words.block_word block) }
{
    write!(text, "{}{}", part_word(block.part), block.level)
}

/// Writes an access.
#[tactic(auto, unfolding(crate::specs::Words::access_word))]
pub fn push_access(text: &mut String, spot: Spot) -> Result<(), AllocError>
    ensures { OnOk result (string_bytes text.new ≡ string_bytes text.old ++ words.access_word spot) }
{
    push_block(text, spot.block)?;
    write!(text, ".{}", spot.access)
}

/// Writes counters.
#[tactic(auto, unfolding(crate::specs::Words::counters_word))]
fn push_counters(text: &mut String, counters: &[i64]) -> Result<(), AllocError>
    ensures { OnOk result (string_bytes text.new ≡ string_bytes text.old ++ words.counters_word counters.now) }
{
    text.push_str("(")?;
    push_joined(text, counters)?;
    text.push_str(")")
}

/// Writes numbers with a comma between each two.
fn push_joined(text: &mut String, numbers: &[i64]) -> Result<(), AllocError>
    ensures { OnOk result (string_bytes text.new ≡ string_bytes text.old ++ join_with_byte 44 (map signed_decimal numbers.now)) }
{
    let Some((first, rest)) = numbers.split_first() else {
        return Ok(());
    };
    write!(text, "{first}")?;
    push_others(text, ",", rest)
}

/// Writes numbers, each behind a separator.
pub fn push_others(text: &mut String, separator: &str, numbers: &[i64]) -> Result<(), AllocError>
    ensures { OnOk result (string_bytes text.new ≡ string_bytes text.old ++ flat_map (λ number. separator.now ++ signed_decimal number) numbers.now) }
{
    for number in numbers {
        write!(text, "{separator}{number}")?;
    }
    Ok(())
}

/// Writes an instance.
#[tactic(auto, unfolding(crate::specs::Words::instance_phrase))]
pub fn push_instance(text: &mut String, at: &At) -> Result<(), AllocError>
    ensures { OnOk result (string_bytes text.new ≡ string_bytes text.old ++ words.instance_phrase at.now) }
{
    push_block(text, at.block)?;
    text.push_str(" ")?;
    push_counters(text, at.counters.as_slice())
}

/// Writes a datum of a block.
#[tactic(auto, unfolding(crate::specs::Words::datum_phrase))]
pub fn push_datum(text: &mut String, file: &NestFile, what: What) -> Result<(), AllocError>
    requires { IfSome (scalar_of_what what) (λ number. number < length file.now.scalars) }
    ensures { OnOk result (string_bytes text.new ≡ string_bytes text.old ++ words.datum_phrase (scalar_names file.now) what) }
{
    match what {
        What::Scalar(number) => write!(text, "scalar {}", scalar_name(file, number)),
        What::Address(access) => write!(text, "address {access}"),
        What::Lower => text.push_str("lower"),
        What::Trip => text.push_str("trip"),
    }
}

/// Writes why a datum has no form.
#[tactic(auto, unfolding(crate::specs::Words::unfit_phrase))]
pub fn push_unfit(text: &mut String, why: &LineUnfit) -> Result<(), AllocError>
    ensures { OnOk result (string_bytes text.new ≡ string_bytes text.old ++ words.unfit_phrase why.now) }
{
    match why {
        LineUnfit::Line { at, line, seen } => {
            text.push_str("at ")?;
            push_counters(text, at.counters.as_slice())?;
            write!(text, " line {line} seen {seen}")
        }
        LineUnfit::Large(value) => write!(text, "large {value}"),
    }
}

/// Writes why a chunk is held.
#[tactic(auto, unfolding(crate::specs::Words::held_phrase))]
pub fn push_held(text: &mut String, file: &NestFile, why: HeldWhy) -> Result<(), AllocError>
    requires { IfSome (scalar_of_why why) (λ number. number < length file.now.scalars) }
    ensures { OnOk result (string_bytes text.new ≡ string_bytes text.old ++ words.held_phrase (scalar_names file.now) why) }
{
    match why {
        HeldWhy::Negative(trip) => write!(text, "trip {trip}"),
        HeldWhy::Many => text.push_str("many"),
        HeldWhy::Outside(access, address) => write!(text, "store {access} address {address}"),
        HeldWhy::Scalar(number, value) => {
            write!(text, "scalar {} {value}", scalar_name(file, number))
        }
        HeldWhy::Lower(value) => write!(text, "lower {value}"),
        HeldWhy::Last(value) => write!(text, "last {value}"),
    }
}

/// Writes a trap.
#[tactic(auto, unfolding(crate::specs::Words::trap_phrase))]
fn push_trap(text: &mut String, trap: Trap) -> Result<(), AllocError>
    ensures { OnOk result (string_bytes text.new ≡ string_bytes text.old ++ words.trap_phrase trap) }
{
    match trap {
        Trap::Overflow => text.push_str("overflow"),
        Trap::ZeroDivisor => text.push_str("zero"),
        Trap::Outside(address) => write!(text, "outside {address}"),
    }
}

/// Writes how a run differs from what is expected of it.
#[tactic(auto, unfolding(crate::specs::Words::how_phrase))]
pub fn push_how(text: &mut String, file: &NestFile, how: How) -> Result<(), AllocError>
    requires { IfSome (scalar_of_how how) (λ number. number < length file.now.scalars) }
    ensures { OnOk result (string_bytes text.new ≡ string_bytes text.old ++ words.how_phrase (scalar_names file.now) how) }
{
    match how {
        How::Scalar(number, expected, seen) => {
            let name = scalar_name(file, number);
            write!(text, "scalar {name} expected {expected} seen {seen}")
        }
        How::Address(access, expected, seen) => {
            write!(text, "address {access} expected {expected} seen {seen}")
        }
        How::Unseen(access, address) => write!(text, "unseen {access} address {address}"),
        How::Lower(expected, seen) => {
            text.push_str("lower ")?;
            push_expected(text, expected, seen)
        }
        How::Trip(expected, seen) => write!(text, "trip expected {expected} seen {seen}"),
        How::Condition(expected, seen) => {
            text.push_str("condition ")?;
            push_conditions(text, expected, seen)
        }
        How::Ended => text.push_str("ended"),
        How::Trap(trap) => {
            text.push_str("trap ")?;
            push_trap(text, trap)
        }
        How::Limit => text.push_str("limit"),
    }
}

/// Writes the expected and the seen value.
fn push_expected(text: &mut String, expected: i128, seen: i64) -> Result<(), AllocError>
    ensures { OnOk result (string_bytes text.new ≡ string_bytes text.old ++ words.expected_phrase (signed_decimal expected) (signed_decimal seen)) }
{
    write!(text, "expected {expected} seen {seen}")
}

/// Writes the expected and the seen condition.
fn push_conditions(text: &mut String, expected: bool, seen: bool) -> Result<(), AllocError>
    ensures { OnOk result (string_bytes text.new ≡ string_bytes text.old ++ words.expected_phrase (words.condition_word expected) (words.condition_word seen)) }
{
    let (expected, seen) = (condition_word(expected), condition_word(seen));
    write!(text, "expected {expected} seen {seen}")
}
