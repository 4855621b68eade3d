//! Loops and what stands in them.

ghost use Rattle.std.specs.Prelude.{◌≡◌, ◌≤◌, ◌<◌, ◌+◌, length, OnOk, IfOk};
ghost use Rattle.nest_grammar.specs.Loops.{loop_keyword, around, inside, stride, heading, body_end, rest_of, loop_of, loops};
ghost use Rattle.nest_grammar.specs.declared.opening.LoopKeyword.TheVariants.{For as ForWord, While as WhileWord};
ghost use Rattle.nest_text.specs.Answers.{Gives};

use crate::reader::{Reader, signed_value};
use crate::refusal::ReadRefusal;
use nest_grammar::{Declared, LoopKeyword, LoopNames, TextKind};
use nest_lang::{Head, Loop, Place, Stmt};
use nest_tokens::{Mark, Name, Token};
use sqlite_items::Items;
use std::alloc::{AllocError, AllocFailed, Global};

/// Loops, the outermost first, and their names.
pub type Loops = (Items<Loop>, Items<LoopNames>);

/// The statements of a block, and the names of its locals.
type Block = (Items<Stmt>, Items<Name>);

/// The word that a loop begins with.
#[tactic(auto, unfolding(nest_grammar::specs::Loops::loop_keyword))]
pub fn loop_keyword(token: Token) -> Option<LoopKeyword>
    ensures { result ≡ loop_keyword token }
{
    match token {
        Token::Plain(Mark::For) => Some(LoopKeyword::For),
        Token::Plain(Mark::While) => Some(LoopKeyword::While),
        _ => None,
    }
}

/// A loop around its inner loops.
fn around(
    alloc: Global,
    heading: (Head, Option<Name>),
    pre: Block,
    rest: (Loops, Block),
) -> Result<Loops, AllocError>
    ensures { IfOk result (λ loops. loops ≡ around heading pre rest) }
{
    let (head, counter) = heading;
    let (pre, pre_names) = pre;
    let ((inner, inner_names), (post, post_names)) = rest;
    let mut loops = Items::new(alloc);
    loops.push(Loop { head, pre, post })?;
    loops.append(inner)?;
    let mut names = Items::new(alloc);
    names.push(LoopNames {
        counter,
        pre: pre_names,
        post: post_names,
    })?;
    names.append(inner_names)?;
    Ok((loops, names))
}

/// A `for`'s name is visible in the body of its loop.
fn declare(
    names: &mut Vec<Declared>,
    level: u8,
    counter: Option<Name>,
) -> Result<(), AllocFailed<Declared>>
    ensures { OnOk result (names.new.items ≡ inside names.old.items level counter) }
{
    match counter {
        Some(name) => names.push(Declared {
            name,
            place: Place::Counter(level),
        }),
        None => Ok(()),
    }
}

impl<'a> Reader<'a> {
    /// Reads the step of a `for`, which is 1 where none is written.
    #[tactic(auto, using(crate::proofs::ProductionLaws::steps))]
    fn stride(&mut self) -> Result<i64, ReadRefusal>
        ensures { Gives result self.new (stride self.old) }
    {
        if !self.token().is(Mark::Step) {
            return Ok(1);
        }
        self.skip();
        let negative = self.sign();
        let number = self.number_here()?;
        self.pass(number != 0, TextKind::Range)?;
        Ok(signed_value(negative, number))
    }

    /// Reads the head of a `for`, with the name of its turns.
    fn for_heading(&mut self, names: &[Declared]) -> Result<(Head, Option<Name>), ReadRefusal>
        ensures { Gives result self.new (heading names.now ForWord self.old) }
    {
        self.skip();
        let name = self.fresh(names)?;
        self.need(Mark::Assign)?;
        self.begin_block();
        let lower = self.expression(names)?;
        self.need(Mark::Below)?;
        let upper = self.expression(names)?;
        let stride = self.stride()?;
        Ok((Head::For(lower, upper, stride), Some(name)))
    }

    /// Reads the head of a `while`.
    fn while_heading(&mut self, names: &[Declared]) -> Result<(Head, Option<Name>), ReadRefusal>
        ensures { Gives result self.new (heading names.now WhileWord self.old) }
    {
        self.skip();
        self.begin_block();
        let condition = self.expression(names)?;
        Ok((Head::While(condition), None))
    }

    /// Reads the head of a loop that begins with this word.
    fn heading(
        &mut self,
        names: &[Declared],
        word: LoopKeyword,
    ) -> Result<(Head, Option<Name>), ReadRefusal>
        ensures { Gives result self.new (heading names.now word self.old) }
    {
        match word {
            LoopKeyword::For => self.for_heading(names),
            LoopKeyword::While => self.while_heading(names),
        }
    }

    /// Reads the `}` of a body with these statements before its inner loops.
    #[tactic(auto, using(crate::proofs::LevelLaws::bodies), unfolding(nest_grammar::specs::Loops::body_end, nest_grammar::specs::Readings::refused))]
    fn body_end(&mut self, pre: &[Stmt], inner: &[Loop]) -> Result<(), ReadRefusal>
        ensures { Gives result self.new (body_end pre.now inner.now self.old) }
    {
        if !self.token().is(Mark::CloseBrace) {
            return Err(ReadRefusal::Text(self.unexpected()));
        }
        self.pass(!(pre.is_empty() && inner.is_empty()), TextKind::Empty)
    }

    /// Reads the inner loops of a body and the block behind them, where there is an inner loop.
    #[cycle(nesting)]
    fn rest(
        &mut self,
        names: &mut Vec<Declared>,
        levels: usize,
        level: u8,
    ) -> Result<(Loops, Block), ReadRefusal>
        requires { level + levels ≤ 6 }
        ensures read { Gives result self.new (rest_of (loops levels level names.old.items) names.old.items self.old) }
        ensures kept { OnOk result (names.new.items ≡ names.old.items) }
        ensures shallow { IfOk result (λ rest. length rest.0.0 ≤ levels) }
    {
        match loop_keyword(self.token()) {
            Some(_) => {
                let inner = self.loops(names, levels, level)?;
                let post = self.block(names)?;
                Ok((inner, post))
            }
            None => Ok((
                (Items::new(self.alloc), Items::new(self.alloc)),
                (Items::new(self.alloc), Items::new(self.alloc)),
            )),
        }
    }

    /// Reads a loop that begins with this word, in which so many levels more are allowed.
    #[cycle(nesting)]
    #[tactic(auto, using(crate::proofs::LevelLaws::insides))]
    fn loop_of(
        &mut self,
        names: &mut Vec<Declared>,
        levels: usize,
        level: u8,
        word: LoopKeyword,
    ) -> Result<Loops, ReadRefusal>
        requires { level + levels < 6 }
        ensures read { Gives result self.new (loop_of (loops levels (level + 1)) level names.old.items word self.old) }
        ensures kept { OnOk result (names.new.items ≡ names.old.items) }
        ensures shallow { IfOk result (λ loops. length loops.0 ≤ levels + 1) }
    {
        let visible = names.len();
        let (head, counter) = self.heading(names.as_slice(), word)?;
        self.need(Mark::OpenBrace)?;
        declare(names, level, counter)?;
        let pre = self.block(names)?;
        let rest = self.rest(names, levels, level + 1)?;
        self.body_end(pre.0.as_slice(), rest.0.0.as_slice())?;
        names.truncate(visible);
        Ok(around(self.alloc, (head, counter), pre, rest)?)
    }

    /// Reads a loop at a level, from 0, where so many levels are allowed.
    #[cycle(nesting)]
    #[tactic(auto, using(crate::proofs::LevelLaws::levels))]
    pub fn loops(
        &mut self,
        names: &mut Vec<Declared>,
        levels: usize,
        level: u8,
    ) -> Result<Loops, ReadRefusal>
        requires { level + levels ≤ 6 }
        ensures read { Gives result self.new (loops levels level names.old.items self.old) }
        ensures kept { OnOk result (names.new.items ≡ names.old.items) }
        ensures shallow { IfOk result (λ loops. length loops.0 ≤ levels) }
    {
        match loop_keyword(self.token()) {
            Some(word) => {
                if levels == 0 {
                    return Err(ReadRefusal::Text(self.fault(TextKind::Deep)));
                }
                self.loop_of(names, levels - 1, level, word)
            }
            None => Err(ReadRefusal::Text(self.unexpected())),
        }
    }
}
