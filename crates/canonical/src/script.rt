//! The writer of candidates.

ghost use Rattle.std.specs.Prelude.{◌≡◌, ◌++◌, [], OnOk};
ghost use Rattle.std.specs.List.{flat_map};
ghost use Rattle.nest_grammar.specs.Scripts.{word_spelling};
ghost use Rattle.canonical.specs.Pieces.{text_of};
ghost use Rattle.canonical.specs.Scripts.{operand, signed_operand, command_of, next_command, commands_of, candidate_line};

use crate::page::Page;
use nest_grammar::CommandWord;
use nest_lang::Command;
use nest_tokens::Mark;
use std::alloc::AllocError;

/// Writes a command's word.
fn write_word(word: CommandWord, page: &mut Page) -> Result<(), AllocError>
    ensures { OnOk result (page.new ≡ page.old ++ word_spelling word) }
{
    page.text(word.spelling())
}

/// Writes a number behind a space.
#[tactic(auto, using(crate::proofs::PieceLaws::texts))]
pub fn write_operand(number: u64, page: &mut Page) -> Result<(), AllocError>
    ensures { OnOk result (page.new ≡ page.old ++ text_of (operand number)) }
{
    page.space()?;
    page.number(number)
}

/// Writes a number with its sign, behind a space.
#[tactic(auto, using(crate::proofs::PieceLaws::texts))]
pub fn write_signed(number: i64, page: &mut Page) -> Result<(), AllocError>
    ensures { OnOk result (page.new ≡ page.old ++ text_of (signed_operand number)) }
{
    page.space()?;
    page.signed(number)
}

/// Writes numbers, each behind a space.
#[tactic(auto, using(crate::proofs::PieceLaws::lists))]
fn write_rows(rows: &[u8], page: &mut Page) -> Result<(), AllocError>
    ensures { OnOk result (page.new ≡ page.old ++ text_of (flat_map operand rows.now)) }
{
    for row in rows {
        write_operand(u64::from(*row), page)?;
    }
    Ok(())
}

/// Writes a command.
#[tactic(auto, unfolding(crate::specs::Scripts::command_of), using(crate::proofs::PieceLaws::texts, crate::proofs::WordLaws::words))]
fn write_command(command: &Command, page: &mut Page) -> Result<(), AllocError>
    ensures { OnOk result (page.new ≡ page.old ++ text_of (command_of command.now)) }
{
    match command {
        Command::Seq(rows) => {
            write_word(CommandWord::Seq, page)?;
            write_operand(u64::from(*rows), page)
        }
        Command::Swap(one, other) => {
            write_word(CommandWord::Swap, page)?;
            write_operand(u64::from(*one), page)?;
            write_operand(u64::from(*other), page)
        }
        Command::Skew(row, by, factor) => {
            write_word(CommandWord::Skew, page)?;
            write_operand(u64::from(*row), page)?;
            write_operand(u64::from(*by), page)?;
            write_signed(*factor, page)
        }
        Command::Tile(row, size) => {
            write_word(CommandWord::Tile, page)?;
            write_operand(u64::from(*row), page)?;
            write_signed(*size, page)
        }
        Command::Par(rows) => {
            write_word(CommandWord::Par, page)?;
            write_rows(rows.as_slice(), page)
        }
        Command::Wave(rows) => {
            write_word(CommandWord::Wave, page)?;
            write_rows(rows.as_slice(), page)
        }
    }
}

/// Writes a command behind a semicolon.
#[tactic(auto, using(crate::proofs::PieceLaws::texts))]
fn write_next(command: &Command, page: &mut Page) -> Result<(), AllocError>
    ensures { OnOk result (page.new ≡ page.old ++ text_of (next_command command.now)) }
{
    page.mark(Mark::Semicolon)?;
    page.space()?;
    write_command(command, page)
}

/// Writes commands, each behind a semicolon.
#[tactic(auto, using(crate::proofs::PieceLaws::lists))]
fn write_others(commands: &[Command], page: &mut Page) -> Result<(), AllocError>
    ensures { OnOk result (page.new ≡ page.old ++ text_of (flat_map next_command commands.now)) }
{
    for command in commands {
        write_next(command, page)?;
    }
    Ok(())
}

/// Writes the commands of a script, with a space behind the last.
#[tactic(auto, unfolding(crate::specs::Scripts::commands_of), using(crate::proofs::PieceLaws::texts))]
fn write_commands(script: &[Command], page: &mut Page) -> Result<(), AllocError>
    ensures { OnOk result (page.new ≡ page.old ++ text_of (commands_of script.now)) }
{
    let Some((first, others)) = script.split_first() else {
        return Ok(());
    };
    write_command(first, page)?;
    write_others(others, page)?;
    page.space()
}

/// Writes the line of a candidate.
#[tactic(auto, unfolding(crate::specs::Scripts::candidate_line), using(crate::proofs::PieceLaws::texts))]
pub fn write_candidate(script: &[Command], page: &mut Page) -> Result<(), AllocError>
    ensures { OnOk result (page.new ≡ page.old ++ text_of (candidate_line script.now)) }
{
    page.mark(Mark::Candidate)?;
    page.space()?;
    page.mark(Mark::OpenBrace)?;
    page.space()?;
    write_commands(script, page)?;
    page.mark(Mark::CloseBrace)?;
    page.newline()
}
