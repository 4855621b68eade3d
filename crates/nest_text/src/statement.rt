//! Statements and blocks.

ghost use Rattle.std.specs.Prelude.{◌≡◌, ◌<◌, length, take, OnOk, IfOk};
ghost use Rattle.nest_grammar.specs.Statements.{opening_of, statement, braced, else_of, statements, block};
ghost use Rattle.nest_grammar.specs.declared.opening.Opening.TheVariants.{Let as Letting, Name as Naming, Store as Storing};
ghost use Rattle.nest_text.specs.Answers.{Gives, GivesAs};
ghost use Rattle.nest_text.specs.Parts.{simple, within, choice};

use crate::limits::{MOST_IFS, MOST_LETS};
use crate::reader::Reader;
use crate::refusal::ReadRefusal;
use nest_grammar::{Declared, Opening, TextKind};
use nest_lang::{Place, Stmt};
use nest_tokens::{Mark, Name, Token};
use sqlite_items::Items;

/// How a statement begins that begins with this token. None where none does.
#[tactic(auto, unfolding(nest_grammar::specs::Statements::opening_of))]
fn opening_of(token: Token) -> Option<Opening>
    ensures { result ≡ opening_of token }
{
    match token {
        Token::Name(name) => Some(Opening::Name(name)),
        Token::Plain(Mark::Let) => Some(Opening::Let),
        Token::Plain(Mark::OpenBracket) => Some(Opening::Store),
        Token::Plain(Mark::If) => Some(Opening::If),
        _ => None,
    }
}

impl<'a> Reader<'a> {
    /// Reads a `let`. Its name is visible from behind it on.
    #[tactic(auto, using(crate::proofs::ProductionLaws::lets, crate::proofs::ListingLaws::keeping), unfolding(nest_grammar::specs::Readings::obeys, nest_grammar::specs::Sights::skip))]
    fn let_statement(&mut self, names: &mut Vec<Declared>) -> Result<Stmt, ReadRefusal>
        ensures read { GivesAs (λ st. (st, names.new.items)) result self.new (simple names.old.items Letting self.old) }
        ensures kept { OnOk result (take (length names.old.items) names.new.items ≡ names.old.items) }
    {
        let number = self.lets.len();
        self.obey(number < MOST_LETS, TextKind::Many)?;
        let number = number as u8;
        self.skip();
        let name = self.fresh(names.as_slice())?;
        self.lets.push(name)?;
        self.need(Mark::Assign)?;
        let value = self.expression(names.as_slice())?;
        names.push(Declared {
            name,
            place: Place::Local(number),
        })?;
        Ok(Stmt::Let(number, value))
    }

    /// Reads a scalar that is given a value.
    fn assignment(&mut self, names: &[Declared], name: Name) -> Result<Stmt, ReadRefusal>
        ensures { GivesAs (λ st. (st, names.now)) result self.new (simple names.now (Naming name) self.old) }
    {
        let number = self.target(names, name)?;
        self.need(Mark::Assign)?;
        let value = self.expression(names)?;
        Ok(Stmt::Set(number, value))
    }

    /// Reads a store. It is numbered behind the loads of its address and its value.
    #[tactic(auto, using(crate::proofs::ProductionLaws::store_room))]
    fn store(&mut self, names: &[Declared]) -> Result<Stmt, ReadRefusal>
        ensures { GivesAs (λ st. (st, names.now)) result self.new (simple names.now Storing self.old) }
    {
        self.begin_access()?;
        self.skip();
        let address = self.expression(names)?;
        self.need(Mark::CloseBracket)?;
        self.need(Mark::Assign)?;
        let value = self.expression(names)?;
        let access = self.number_access();
        Ok(Stmt::Store(access, address, value))
    }

    /// Goes past a token behind which something stands one deeper.
    #[tactic(auto, unfolding(crate::specs::Parts::within, nest_grammar::specs::Readings::refused))]
    fn deeper(&mut self, depth: usize) -> Result<usize, ReadRefusal>
        ensures read { Gives result self.new (within depth self.old) }
        ensures less { IfOk result (λ below. below < depth) }
    {
        if depth == 0 {
            return Err(ReadRefusal::Text(self.fault(TextKind::Deep)));
        }
        self.skip();
        Ok(depth - 1)
    }

    /// Reads a choice, where so many may stand within one another.
    #[cycle(statement)]
    #[tactic(auto, using(crate::proofs::ProductionLaws::choices))]
    fn choice(&mut self, names: &mut Vec<Declared>, depth: usize) -> Result<Stmt, ReadRefusal>
        ensures read { Gives result self.new (choice depth names.old.items self.old) }
        ensures kept { OnOk result (names.new.items ≡ names.old.items) }
    {
        let depth = self.deeper(depth)?;
        let condition = self.expression(names.as_slice())?;
        let first = self.braced(names, depth)?;
        let second = self.otherwise(names, depth)?;
        Ok(Stmt::If(condition, first, second))
    }

    /// Reads a statement that begins so.
    #[cycle(statement)]
    fn statement(
        &mut self,
        names: &mut Vec<Declared>,
        depth: usize,
        opening: Opening,
    ) -> Result<Stmt, ReadRefusal>
        ensures read { GivesAs (λ st. (st, names.new.items)) result self.new (statement (choice depth names.old.items) names.old.items opening self.old) }
        ensures kept { OnOk result (take (length names.old.items) names.new.items ≡ names.old.items) }
    {
        match opening {
            Opening::Let => self.let_statement(names),
            Opening::Name(name) => self.assignment(names.as_slice(), name),
            Opening::Store => self.store(names.as_slice()),
            Opening::If => self.choice(names, depth),
        }
    }

    /// Reads statements between braces.
    #[cycle(statement)]
    fn braced(
        &mut self,
        names: &mut Vec<Declared>,
        depth: usize,
    ) -> Result<Items<Stmt>, ReadRefusal>
        ensures read { Gives result self.new (braced (statements depth names.old.items) self.old) }
        ensures kept { OnOk result (names.new.items ≡ names.old.items) }
    {
        self.need(Mark::OpenBrace)?;
        let statements = self.statements(names, depth)?;
        self.need(Mark::CloseBrace)?;
        Ok(statements)
    }

    /// Reads the second branch of a choice, where it has one.
    #[cycle(statement)]
    fn otherwise(
        &mut self,
        names: &mut Vec<Declared>,
        depth: usize,
    ) -> Result<Items<Stmt>, ReadRefusal>
        ensures read { Gives result self.new (else_of (statements depth names.old.items) self.old) }
        ensures kept { OnOk result (names.new.items ≡ names.old.items) }
    {
        if self.token().is(Mark::Else) {
            self.skip();
            self.braced(names, depth)
        } else {
            Ok(Items::new(self.alloc))
        }
    }

    /// Reads statements. The names that they declare are visible up to their end.
    #[cycle(statement)]
    #[tactic(auto, using(crate::proofs::ListingLaws::listings))]
    fn statements(
        &mut self,
        names: &mut Vec<Declared>,
        depth: usize,
    ) -> Result<Items<Stmt>, ReadRefusal>
        ensures read { Gives result self.new (statements depth names.old.items self.old) }
        ensures kept { OnOk result (names.new.items ≡ names.old.items) }
    {
        let visible = names.len();
        let mut statements = Items::new(self.alloc);
        'statements: while let Some(opening) = opening_of(self.token()) {
            let statement = self.statement(names, depth, opening)?;
            statements.push(statement)?;
        }
        names.truncate(visible);
        Ok(statements)
    }

    /// Reads the statements of a block, with the names of its locals.
    #[tactic(auto, unfolding(nest_grammar::specs::Statements::block))]
    pub fn block(
        &mut self,
        names: &mut Vec<Declared>,
    ) -> Result<(Items<Stmt>, Items<Name>), ReadRefusal>
        ensures read { Gives result self.new (block names.old.items self.old) }
        ensures kept { OnOk result (names.new.items ≡ names.old.items) }
    {
        self.begin_block();
        let statements = self.statements(names, MOST_IFS)?;
        let lets = Items::from_slice(self.alloc, self.lets.as_slice())?;
        Ok((statements, lets))
    }
}
