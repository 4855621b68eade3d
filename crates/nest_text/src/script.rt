//! Candidates and their scripts.

ghost use Rattle.std.specs.Prelude.{◌≡◌, ◌<◌, ◌++◌, ◌∷◌, [], length, OnOk, count_by, nat_le};
ghost use Rattle.nest_tokens.specs.Lexing.{name_of};
ghost use Rattle.nest_grammar.specs.Readings.{signed_where};
ghost use Rattle.nest_grammar.specs.declared.fault.TextKind.TheVariants.{Script as ScriptKind};
ghost use Rattle.nest_grammar.specs.Scripts.{word_spelling, word_of_name, command_word, is_seq, is_skew, may_follow, row, row_but, ruled, is_factor, is_size, row_begins, next_row, rows, operands, command, script, candidate, candidates};
ghost use Rattle.nest_grammar.specs.declared.script.CommandWord.TheVariants.{Swap as SwapWord, Skew as SkewWord, Tile as TileWord};
ghost use Rattle.nest_text.specs.Answers.{Gives, GivesAs};
ghost use Rattle.nest_text.specs.Parts.{commands, tile_size};

use crate::limits::{MOST_CANDIDATES, MOST_COMMANDS, MOST_ROWS, MOST_SKEWS};
use crate::reader::{Reader, signed_value};
use crate::refusal::ReadRefusal;
use arrayvec::ArrayVec;
use nest_grammar::{CommandWord, TextKind};
use nest_lang::Command;
use nest_tokens::{LONGEST_NAME, Mark, Name, Token};
use sqlite_items::Items;

/// The greatest size of a tile.
const MOST_SIZE: u64 = 65_536;

/// The words that a command may begin with.
const WORDS: [CommandWord; 6] = [
    CommandWord::Seq,
    CommandWord::Swap,
    CommandWord::Skew,
    CommandWord::Tile,
    CommandWord::Par,
    CommandWord::Wave,
];

/// A command's word as a name, with zeros behind it.
fn padded(word: CommandWord) -> [u8; 32]
    ensures { result ≡ (name_of (word_spelling word)).bytes }
{
    let spelled = word.spelling();
    let mut bytes = [0; LONGEST_NAME];
    bytes[..spelled.len()].copy_from_slice(spelled);
    bytes
}

/// The command's word that a name is.
#[tactic(auto, unfolding(nest_grammar::specs::Scripts::word_of_name))]
fn word_of_name(name: Name) -> Option<CommandWord>
    ensures { result ≡ word_of_name name }
{
    WORDS
        .iter()
        .copied()
        .find(|word| padded(*word) == name.bytes)
}

/// The command's word that a token is.
#[tactic(auto, unfolding(nest_grammar::specs::Scripts::command_word))]
fn command_word(token: Token) -> Option<CommandWord>
    ensures { result ≡ command_word token }
{
    match token {
        Token::Name(name) => word_of_name(name),
        _ => None,
    }
}

fn is_seq(command: &Command) -> bool
    ensures { result ≡ is_seq command.now }
{
    matches!(command, Command::Seq(_))
}

fn is_skew(command: &Command) -> bool
    ensures { result ≡ is_skew command.now }
{
    matches!(command, Command::Skew(_, _, _))
}

/// How many commands are a `seq`.
fn seqs(commands: &[Command]) -> usize
    ensures { result ≡ count_by is_seq commands.now }
{
    commands.iter().filter(|command| is_seq(command)).count()
}

/// How many commands are a `skew`.
fn skews(commands: &[Command]) -> usize
    ensures { result ≡ count_by is_skew commands.now }
{
    commands.iter().filter(|command| is_skew(command)).count()
}

/// Whether a command of this word may stand behind these: `seq` stands at most once, and `skew` at most
/// six times.
fn may_follow(word: CommandWord, commands: &[Command]) -> bool
    ensures { result ≡ may_follow word commands.now }
{
    match word {
        CommandWord::Seq => seqs(commands) < 1,
        CommandWord::Skew => skews(commands) < MOST_SKEWS,
        _ => true,
    }
}

/// Sees whether another row's number begins with this token.
#[tactic(auto, unfolding(nest_grammar::specs::Scripts::row_begins))]
fn row_begins(token: Token) -> Option<()>
    ensures { result ≡ row_begins token }
{
    match token {
        Token::Number(_) => Some(()),
        _ => None,
    }
}

impl<'a> Reader<'a> {
    /// Goes past the number of a row.
    #[tactic(auto, using(crate::proofs::ProductionLaws::numbers))]
    fn row(&mut self, depth: u8) -> Result<u8, ReadRefusal>
        ensures { Gives result self.new (row depth self.old) }
    {
        let number = self.number_here()?;
        self.pass(1 <= number && number <= u64::from(depth), TextKind::Script)?;
        Ok(number as u8)
    }

    /// Goes past the number of another row than this one.
    #[tactic(auto, using(crate::proofs::ProductionLaws::numbers))]
    fn row_but(&mut self, depth: u8, other: u8) -> Result<u8, ReadRefusal>
        ensures { Gives result self.new (row_but depth other self.old) }
    {
        let number = self.number_here()?;
        let is_row = 1 <= number && number <= u64::from(depth);
        self.pass(is_row && number != u64::from(other), TextKind::Script)?;
        Ok(number as u8)
    }

    /// Goes past the number of leading rows.
    #[tactic(auto, using(crate::proofs::ProductionLaws::numbers))]
    fn leading(&mut self, depth: u8) -> Result<u8, ReadRefusal>
        ensures { Gives result self.new (ruled (λ n. nat_le n depth) self.old) }
    {
        let number = self.number_here()?;
        self.pass(number <= u64::from(depth), TextKind::Script)?;
        Ok(number as u8)
    }

    /// Goes past the factor of a `skew`.
    #[tactic(auto, using(crate::proofs::ProductionLaws::factors))]
    fn factor(&mut self) -> Result<i64, ReadRefusal>
        ensures { Gives result self.new (signed_where is_factor ScriptKind self.old) }
    {
        let negative = self.sign();
        let number = self.number_here()?;
        self.pass(number <= 8, TextKind::Script)?;
        Ok(signed_value(negative, number))
    }

    /// Goes past the size of a tile.
    #[tactic(auto, using(crate::proofs::ProductionLaws::numbers))]
    fn size(&mut self) -> Result<i64, ReadRefusal>
        ensures { Gives result self.new (tile_size self.old) }
    {
        let number = self.number_here()?;
        self.pass(1 <= number && number <= MOST_SIZE, TextKind::Script)?;
        Ok(number as i64)
    }

    /// Goes past the number of a row behind so many others.
    #[tactic(auto, unfolding(nest_grammar::specs::Readings::obeys))]
    fn next_row(&mut self, depth: u8, before: &[u8]) -> Result<u8, ReadRefusal>
        ensures read { GivesAs (λ n. before.now ++ n ∷ []) result self.new (next_row depth before.now self.old) }
        ensures room { OnOk result (length before.now < 6) }
    {
        self.obey(before.len() < MOST_ROWS, TextKind::Script)?;
        self.row(depth)
    }

    /// Reads the numbers of rows.
    #[tactic(auto, using(crate::proofs::MarkedPartLaws::row_loop), unfolding(nest_grammar::specs::Scripts::rows))]
    fn rows(&mut self, depth: u8) -> Result<ArrayVec<u8, 6>, ReadRefusal>
        ensures { GivesAs (λ rows. rows.items) result self.new (rows depth self.old) }
    {
        let mut rows = ArrayVec::new();
        let first = self.row(depth)?;
        rows.push(first);
        'rows: while let Some(()) = row_begins(self.token()) {
            let row = self.next_row(depth, rows.as_slice())?;
            rows.push(row);
        }
        Ok(rows)
    }

    #[tactic(auto, unfolding(nest_grammar::specs::Scripts::operands))]
    fn swap(&mut self, depth: u8) -> Result<Command, ReadRefusal>
        ensures { Gives result self.new (operands depth SwapWord self.old) }
    {
        let first = self.row(depth)?;
        let second = self.row_but(depth, first)?;
        Ok(Command::Swap(first, second))
    }

    #[tactic(auto, unfolding(nest_grammar::specs::Scripts::operands))]
    fn skew(&mut self, depth: u8) -> Result<Command, ReadRefusal>
        ensures { Gives result self.new (operands depth SkewWord self.old) }
    {
        let row = self.row(depth)?;
        let other = self.row_but(depth, row)?;
        let factor = self.factor()?;
        Ok(Command::Skew(row, other, factor))
    }

    #[tactic(auto, unfolding(nest_grammar::specs::Scripts::operands))]
    fn tile(&mut self, depth: u8) -> Result<Command, ReadRefusal>
        ensures { Gives result self.new (operands depth TileWord self.old) }
    {
        let row = self.row(depth)?;
        let size = self.size()?;
        Ok(Command::Tile(row, size))
    }

    /// Reads what stands behind a command's word.
    #[tactic(auto, unfolding(nest_grammar::specs::Scripts::operands))]
    fn operands(&mut self, depth: u8, word: CommandWord) -> Result<Command, ReadRefusal>
        ensures { Gives result self.new (operands depth word self.old) }
    {
        match word {
            CommandWord::Seq => Ok(Command::Seq(self.leading(depth)?)),
            CommandWord::Swap => self.swap(depth),
            CommandWord::Skew => self.skew(depth),
            CommandWord::Tile => self.tile(depth),
            CommandWord::Par => Ok(Command::Par(self.rows(depth)?)),
            CommandWord::Wave => Ok(Command::Wave(self.rows(depth)?)),
        }
    }

    /// Reads a command behind others of its script.
    #[tactic(auto, unfolding(nest_grammar::specs::Scripts::command, nest_grammar::specs::Readings::refused))]
    fn command(&mut self, depth: u8, before: &[Command]) -> Result<Command, ReadRefusal>
        ensures { GivesAs (λ c. before.now ++ c ∷ []) result self.new (command depth before.now self.old) }
    {
        let Some(word) = command_word(self.token()) else {
            return Err(ReadRefusal::Text(self.unexpected()));
        };
        self.obey(before.len() < MOST_COMMANDS, TextKind::Many)?;
        self.pass(may_follow(word, before), TextKind::Script)?;
        self.operands(depth, word)
    }

    /// Reads commands with a `;` between them.
    #[tactic(auto, using(crate::proofs::MarkedPartLaws::command_loop))]
    fn commands(&mut self, depth: u8) -> Result<Items<Command>, ReadRefusal>
        ensures { Gives result self.new (commands depth self.old) }
    {
        let mut commands = Items::new(self.alloc);
        let first = self.command(depth, &[])?;
        commands.push(first)?;
        'commands: while self.token().is(Mark::Semicolon) {
            self.skip();
            let command = self.command(depth, commands.as_slice())?;
            commands.push(command)?;
        }
        Ok(commands)
    }

    /// Reads the script of a candidate.
    #[tactic(auto, unfolding(nest_grammar::specs::Scripts::script))]
    fn script(&mut self, depth: u8) -> Result<Items<Command>, ReadRefusal>
        ensures { Gives result self.new (script depth self.old) }
    {
        self.need(Mark::OpenBrace)?;
        if self.token().is(Mark::CloseBrace) {
            self.skip();
            return Ok(Items::new(self.alloc));
        }
        let commands = self.commands(depth)?;
        self.need(Mark::CloseBrace)?;
        Ok(commands)
    }

    /// Reads a candidate behind so many others.
    fn candidate(
        &mut self,
        depth: u8,
        before: &[Items<Command>],
    ) -> Result<Items<Command>, ReadRefusal>
        ensures { GivesAs (λ cs. before.now ++ cs ∷ []) result self.new (candidate depth before.now self.old) }
    {
        self.obey(before.len() < MOST_CANDIDATES, TextKind::Many)?;
        self.skip();
        self.script(depth)
    }

    /// Reads the candidates of a nest of this depth.
    #[tactic(auto, using(crate::proofs::MarkedPartLaws::candidate_loop), unfolding(nest_grammar::specs::Scripts::candidates))]
    pub fn candidates(&mut self, depth: u8) -> Result<Items<Items<Command>>, ReadRefusal>
        ensures { Gives result self.new (candidates depth self.old) }
    {
        let mut candidates = Items::new(self.alloc);
        'candidates: while self.token().is(Mark::Candidate) {
            let candidate = self.candidate(depth, candidates.as_slice())?;
            candidates.push(candidate)?;
        }
        Ok(candidates)
    }
}
