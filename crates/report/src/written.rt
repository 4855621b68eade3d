//! Lines as texts.

ghost use Rattle.std.specs.Prelude.{◌≡◌, ◌++◌, [], ◌∷◌, length, map, flat_map, OnOk, IfOk, IfSome, string_bytes};
ghost use Rattle.std.specs.List.{All};
ghost use Rattle.std.specs.Fmt.{signed_decimal};
ghost use Rattle.nest_text.specs.Files.{scalar_names};
ghost use Rattle.report.specs.Lines.{CanStand, CanBeListed, line_phrase, line_text, listing_phrase, listing_text, tube_words, commit_phrase, counts_phrase, turns_phrase};
ghost use Rattle.report.specs.Words.{next_word, phrase};

use crate::line::{Line, ListingLine};
use crate::words::{
    push_access, push_block, push_datum, push_held, push_how, push_instance, push_others,
    push_unfit, side_word, verdict_word,
};
use nest_text::NestFile;
use std::alloc::{AllocError, Global};

/// The text of a line of a report (docs/DEFINITIONS.md, Lines), with its newline. The scalar that the line names is
/// one of the file's, and the verdict of an `Illegal` line is `Maybe` or `Wide`. It is refused only where there is no
/// memory for it.
pub fn line_text(alloc: Global, file: &NestFile, line: &Line) -> Result<Vec<u8>, AllocError>
    requires { CanStand (length file.now.scalars) line.now }
    ensures { IfOk result (λ bytes. bytes.items ≡ line_text (scalar_names file.now) line.now) }
{
    let mut text = String::new(alloc);
    push_line(&mut text, file, line)?;
    Ok(text.into_bytes())
}

/// The texts of the lines of a report, in their order, each under the condition of `line_text`. It is refused only where
/// there is no memory for them.
pub fn lines_text(alloc: Global, file: &NestFile, lines: &[Line]) -> Result<Vec<u8>, AllocError>
    requires { All (CanStand (length file.now.scalars)) lines.now }
    ensures { IfOk result (λ bytes. bytes.items ≡ flat_map (line_text (scalar_names file.now)) lines.now) }
{
    let mut text = String::new(alloc);
    for line in lines {
        push_line(&mut text, file, line)?;
    }
    Ok(text.into_bytes())
}

/// The text of a dependence listing (docs/DEFINITIONS.md, Lines): its lines in their order, each with its newline. The
/// scalars that they name are the file's, and no verdict is `Empty`. It is refused only where there is no memory for it.
pub fn listing_text(
    alloc: Global,
    file: &NestFile,
    lines: &[ListingLine],
) -> Result<Vec<u8>, AllocError>
    requires { All (CanBeListed (length file.now.scalars)) lines.now }
    ensures { IfOk result (λ bytes. bytes.items ≡ flat_map (listing_text (scalar_names file.now)) lines.now) }
{
    let mut text = String::new(alloc);
    for line in lines {
        push_listed(&mut text, file, line)?;
    }
    Ok(text.into_bytes())
}

/// Writes a line.
fn push_line(text: &mut String, file: &NestFile, line: &Line) -> Result<(), AllocError>
    requires { CanStand (length file.now.scalars) line.now }
    ensures { OnOk result (string_bytes text.new ≡ string_bytes text.old ++ line_text (scalar_names file.now) line.now) }
{
    push_phrase(text, file, line)?;
    text.push_str("\n")
}

/// Writes a line of a listing.
fn push_listed(text: &mut String, file: &NestFile, line: &ListingLine) -> Result<(), AllocError>
    requires { CanBeListed (length file.now.scalars) line.now }
    ensures { OnOk result (string_bytes text.new ≡ string_bytes text.old ++ listing_text (scalar_names file.now) line.now) }
{
    push_listed_phrase(text, file, line)?;
    text.push_str("\n")
}

/// Writes what a line says.
#[tactic(auto, unfolding(crate::specs::Lines::line_phrase))]
fn push_phrase(text: &mut String, file: &NestFile, line: &Line) -> Result<(), AllocError>
    requires { CanStand (length file.now.scalars) line.now }
    ensures { OnOk result (string_bytes text.new ≡ string_bytes text.old ++ line_phrase (scalar_names file.now) line.now) }
{
    match line {
        Line::Profile { first, turns } => write!(text, "profile {first} turns {turns}"),
        Line::Unfit { block, what, why } => {
            text.push_str("unfit ")?;
            push_block(text, *block)?;
            text.push_str(" ")?;
            push_datum(text, file, *what)?;
            text.push_str(" ")?;
            push_unfit(text, why)
        }
        Line::Illegal {
            candidate,
            first,
            second,
            case,
            row,
            above,
            verdict,
        } => {
            write!(text, "illegal {candidate} pair ")?;
            push_access(text, *first)?;
            text.push_str(" ")?;
            push_access(text, *second)?;
            let (side, verdict) = (side_word(*above), verdict_word(*verdict));
            write!(text, " case {case} row {row} {side} {verdict}")
        }
        Line::Held {
            first,
            turns,
            at,
            why,
        } => {
            write!(text, "held {first} turns {turns} at ")?;
            push_instance(text, at)?;
            text.push_str(" ")?;
            push_held(text, file, *why)
        }
        Line::Commit {
            first,
            turns,
            candidate,
            instances,
            phases,
            tiles,
            steps,
        } => {
            let counts = Counts {
                instances: *instances,
                phases: *phases,
                tiles: *tiles,
                steps: *steps,
            };
            push_commit(text, *first, *turns, *candidate, counts)
        }
        Line::Rollback {
            first,
            turns,
            at,
            how,
        } => {
            write!(text, "rollback {first} turns {turns} at ")?;
            push_instance(text, at)?;
            text.push_str(" ")?;
            push_how(text, file, *how)
        }
        Line::Plain { first, turns } => write!(text, "plain {first} turns {turns}"),
        Line::Nest(number) => write!(text, "nest {number}"),
    }
}

/// What was done in a committed chunk.
#[derive(Clone, Copy)]
struct Counts {
    instances: u64,
    phases: u64,
    tiles: u64,
    steps: u64,
}

/// Writes what a line of a committed chunk says.
fn push_commit(
    text: &mut String,
    first: i64,
    turns: i64,
    candidate: u32,
    counts: Counts,
) -> Result<(), AllocError>
    ensures { OnOk result (string_bytes text.new ≡ string_bytes text.old ++ commit_phrase first turns candidate (counts_phrase counts.instances counts.phases counts.tiles counts.steps)) }
{
    push_turns(text, "commit", first, turns)?;
    write!(text, " candidate {candidate} ")?;
    push_counts(text, counts)
}

/// Writes of which turns a line speaks, behind its first word.
fn push_turns(text: &mut String, word: &str, first: i64, turns: i64) -> Result<(), AllocError>
    ensures { OnOk result (string_bytes text.new ≡ string_bytes text.old ++ phrase (word.now ∷ turns_phrase first turns ∷ [])) }
{
    write!(text, "{word} {first} turns {turns}")
}

/// Writes the counts of a committed chunk.
fn push_counts(text: &mut String, counts: Counts) -> Result<(), AllocError>
    ensures { OnOk result (string_bytes text.new ≡ string_bytes text.old ++ counts_phrase counts.instances counts.phases counts.tiles counts.steps) }
{
    let Counts {
        instances,
        phases,
        tiles,
        steps,
    } = counts;
    write!(
        text,
        "instances {instances} phases {phases} tiles {tiles} steps {steps}"
    )
}

/// Writes what a line of a listing says.
#[tactic(auto, unfolding(crate::specs::Lines::listing_phrase))]
fn push_listed_phrase(
    text: &mut String,
    file: &NestFile,
    line: &ListingLine,
) -> Result<(), AllocError>
    requires { CanBeListed (length file.now.scalars) line.now }
    ensures { OnOk result (string_bytes text.new ≡ string_bytes text.old ++ listing_phrase (scalar_names file.now) line.now) }
{
    match line {
        ListingLine::Report(line) => push_phrase(text, file, line),
        ListingLine::NothingToFit => text.push_str("nothing to fit"),
        ListingLine::Form {
            block,
            what,
            coefficients,
            constant,
            low,
            high,
        } => {
            text.push_str("form ")?;
            push_block(text, *block)?;
            text.push_str(" ")?;
            push_datum(text, file, *what)?;
            push_form(text, coefficients.as_slice(), *constant, *low, *high)
        }
        ListingLine::Depends {
            first,
            second,
            case,
            verdict,
        } => {
            text.push_str("depends ")?;
            push_access(text, *first)?;
            text.push_str(" ")?;
            push_access(text, *second)?;
            write!(text, " case {case} {}", verdict_word(*verdict))
        }
        ListingLine::Legal(candidate) => write!(text, "legal {candidate}"),
    }
}

/// Writes the numbers of a form and its tube, each word after a space.
fn push_form(
    text: &mut String,
    coefficients: &[i64],
    constant: i64,
    low: i64,
    high: i64,
) -> Result<(), AllocError>
    ensures { OnOk result (string_bytes text.new ≡ string_bytes text.old ++ flat_map next_word (map signed_decimal (coefficients.now ++ constant ∷ []) ++ tube_words low high)) }
{
    push_others(text, " ", coefficients)?;
    write!(text, " {constant}")?;
    push_tube(text, low, high)
}

/// Writes a tube after a space, unless it is (0, 0).
#[tactic(auto, unfolding(crate::specs::Lines::tube_words))]
fn push_tube(text: &mut String, low: i64, high: i64) -> Result<(), AllocError>
    ensures { OnOk result (string_bytes text.new ≡ string_bytes text.old ++ flat_map next_word (tube_words low high)) }
{
    if low == 0 && high == 0 {
        return Ok(());
    }
    write!(text, " tube {low} {high}")
}
