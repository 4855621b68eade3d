//! Expressions.

ghost use Rattle.std.specs.Prelude.{◌≡◌, ◌<◌, IfOk, OnOk, Ok};
ghost use Rattle.nest_grammar.specs.Names.{place_of};
ghost use Rattle.nest_lang.specs.declared.tree.Expr.TheVariants.{Two};
ghost use Rattle.nest_grammar.specs.Expressions.{start_of, product_of, addition_of, comparison_of, taken, closed, access, access_number, if_visible, entered, unary, term, sum, expr, expression};
ghost use Rattle.nest_text.specs.Answers.{Gives};
ghost use Rattle.nest_text.specs.Parts.{load};

use crate::limits::{MOST_OPEN, MOST_TOKENS, most_accesses};
use crate::reader::{Reader, value_of};
use crate::refusal::ReadRefusal;
use crate::visible::place_of;
use nest_grammar::{Declared, Start, TextKind};
use nest_lang::{Expr, Op};
use nest_tokens::{Mark, Name, Token};
use sqlite_items::Boxed;
use std::alloc::{AllocError, Global};

/// How an operand begins that begins with this token.
#[tactic(auto, unfolding(nest_grammar::specs::Expressions::start_of))]
fn start_of(token: Token) -> Start
    ensures { result ≡ start_of token }
{
    match token {
        Token::Number(number) => Start::Number(number),
        Token::Name(name) => Start::Name(name),
        Token::Plain(Mark::Minus) => Start::Minus,
        Token::Plain(Mark::Open) => Start::Open,
        Token::Plain(Mark::OpenBracket) => Start::Bracket,
        _ => Start::Other,
    }
}

/// The operator of a term that this token is.
#[tactic(auto, unfolding(nest_grammar::specs::Expressions::product_of))]
fn product_of(token: Token) -> Option<Op>
    ensures { result ≡ product_of token }
{
    match token {
        Token::Plain(Mark::Times) => Some(Op::Mul),
        Token::Plain(Mark::Divide) => Some(Op::Div),
        Token::Plain(Mark::Remainder) => Some(Op::Rem),
        _ => None,
    }
}

/// The operator of a sum that this token is.
#[tactic(auto, unfolding(nest_grammar::specs::Expressions::addition_of))]
fn addition_of(token: Token) -> Option<Op>
    ensures { result ≡ addition_of token }
{
    match token {
        Token::Plain(Mark::Plus) => Some(Op::Add),
        Token::Plain(Mark::Minus) => Some(Op::Sub),
        _ => None,
    }
}

/// The comparison that this token is.
#[tactic(auto, unfolding(nest_grammar::specs::Expressions::comparison_of))]
fn comparison_of(token: Token) -> Option<Op>
    ensures { result ≡ comparison_of token }
{
    match token {
        Token::Plain(Mark::Equal) => Some(Op::Eq),
        Token::Plain(Mark::NotEqual) => Some(Op::Ne),
        Token::Plain(Mark::Less) => Some(Op::Lt),
        Token::Plain(Mark::AtMost) => Some(Op::Le),
        Token::Plain(Mark::Greater) => Some(Op::Gt),
        Token::Plain(Mark::AtLeast) => Some(Op::Ge),
        _ => None,
    }
}

fn two(alloc: Global, op: Op, left: Expr, right: Expr) -> Result<Expr, AllocError>
    ensures { IfOk result (λ e. e ≡ Two op left right) }
{
    Ok(Expr::Two(op, Boxed::new(alloc, left)?, Boxed::new(alloc, right)?))
}

impl<'a> Reader<'a> {
    /// Goes past one more token of the expression.
    #[tactic(auto, unfolding(nest_grammar::specs::Expressions::taken, nest_grammar::specs::Readings::refused, nest_grammar::specs::Sights::skip))]
    fn take(&mut self) -> Result<(), ReadRefusal>
        ensures { Gives result self.new (taken self.old) }
    {
        if self.spent < MOST_TOKENS {
            self.skip();
            self.spent += 1;
            Ok(())
        } else {
            Err(ReadRefusal::Text(self.fault(TextKind::Deep)))
        }
    }

    /// Goes past this sign, a token of the expression.
    #[tactic(auto, unfolding(nest_grammar::specs::Expressions::closed, nest_grammar::specs::Readings::refused))]
    fn close(&mut self, mark: Mark) -> Result<(), ReadRefusal>
        ensures { Gives result self.new (closed mark self.old) }
    {
        if self.token().is(mark) {
            self.take()
        } else {
            Err(ReadRefusal::Text(self.unexpected()))
        }
    }

    /// One more access of the block is begun.
    #[tactic(auto, unfolding(nest_grammar::specs::Expressions::access, nest_grammar::specs::Readings::refused))]
    pub fn begin_access(&mut self) -> Result<(), ReadRefusal>
        ensures read { Gives result self.new (access self.old) }
        ensures begun { OnOk result (self.new.accesses < self.new.opened) }
    {
        if self.opened < most_accesses(self.version) {
            self.opened += 1;
            Ok(())
        } else {
            Err(ReadRefusal::Text(self.fault(TextKind::Many)))
        }
    }

    /// The number of an access that was begun, from 1.
    pub fn number_access(&mut self) -> u8
        requires { self.old.accesses < self.old.opened }
        ensures { access_number self.old ≡ Ok (result, self.new) }
    {
        self.accesses += 1;
        self.accesses
    }

    /// Goes past a token behind which something stands one deeper.
    #[tactic(auto, unfolding(nest_grammar::specs::Expressions::entered, nest_grammar::specs::Readings::refused))]
    fn enter(&mut self, depth: usize) -> Result<usize, ReadRefusal>
        ensures read { Gives result self.new (entered depth self.old) }
        ensures less { IfOk result (λ below. below < depth) }
    {
        if depth == 0 {
            return Err(ReadRefusal::Text(self.fault(TextKind::Deep)));
        }
        self.take()?;
        Ok(depth - 1)
    }

    /// Reads a name that is visible.
    #[tactic(auto, unfolding(nest_grammar::specs::Readings::refused))]
    fn variable(&mut self, names: &[Declared], name: Name) -> Result<Expr, ReadRefusal>
        ensures { Gives result self.new (if_visible (place_of names.now name) self.old) }
    {
        match place_of(names, name) {
            Some(place) => {
                self.take()?;
                Ok(Expr::Var(place))
            }
            None => Err(ReadRefusal::Text(self.fault(TextKind::Unknown))),
        }
    }

    /// Reads a load.
    #[cycle(expression)]
    #[tactic(auto, using(crate::proofs::ProductionLaws::load_room))]
    fn load(&mut self, names: &[Declared], depth: usize) -> Result<Expr, ReadRefusal>
        ensures { Gives result self.new (load names.now depth self.old) }
    {
        self.begin_access()?;
        let depth = self.enter(depth)?;
        let address = self.expr(names, depth)?;
        self.close(Mark::CloseBracket)?;
        let access = self.number_access();
        Ok(Expr::Load(access, Boxed::new(self.alloc, address)?))
    }

    /// Reads a number, a name, or what begins with a `-`, a parenthesis or a bracket, where so many more
    /// of these may be open.
    #[cycle(expression)]
    #[tactic(auto, using(crate::proofs::ProductionLaws::units), unfolding(nest_grammar::specs::Readings::refused))]
    fn unary(&mut self, names: &[Declared], depth: usize) -> Result<Expr, ReadRefusal>
        ensures { Gives result self.new (unary names.now depth self.old) }
    {
        match start_of(self.token()) {
            Start::Number(number) => {
                self.take()?;
                Ok(Expr::Number(value_of(number)))
            }
            Start::Name(name) => self.variable(names, name),
            Start::Minus => {
                let depth = self.enter(depth)?;
                let operand = self.unary(names, depth)?;
                Ok(Expr::Neg(Boxed::new(self.alloc, operand)?))
            }
            Start::Open => {
                let depth = self.enter(depth)?;
                let inner = self.expr(names, depth)?;
                self.close(Mark::Close)?;
                Ok(inner)
            }
            Start::Bracket => self.load(names, depth),
            Start::Other => Err(ReadRefusal::Text(self.unexpected())),
        }
    }

    /// Reads operands between operators of a term, grouped to the left.
    #[cycle(expression)]
    #[tactic(auto, using(nest_grammar::proofs::ChainLaws::operator_chains), unfolding(nest_grammar::specs::Expressions::term))]
    fn term(&mut self, names: &[Declared], depth: usize) -> Result<Expr, ReadRefusal>
        ensures { Gives result self.new (term names.now depth self.old) }
    {
        let mut left = self.unary(names, depth)?;
        'parts: while let Some(op) = product_of(self.token()) {
            self.take()?;
            let right = self.unary(names, depth)?;
            left = two(self.alloc, op, left, right)?;
        }
        Ok(left)
    }

    /// Reads terms between operators of a sum, grouped to the left.
    #[cycle(expression)]
    #[tactic(auto, using(nest_grammar::proofs::ChainLaws::operator_chains), unfolding(nest_grammar::specs::Expressions::sum))]
    fn sum(&mut self, names: &[Declared], depth: usize) -> Result<Expr, ReadRefusal>
        ensures { Gives result self.new (sum names.now depth self.old) }
    {
        let mut left = self.term(names, depth)?;
        'parts: while let Some(op) = addition_of(self.token()) {
            self.take()?;
            let right = self.term(names, depth)?;
            left = two(self.alloc, op, left, right)?;
        }
        Ok(left)
    }

    /// Reads a sum, or two of them with a comparison between.
    #[cycle(expression)]
    #[tactic(auto, unfolding(nest_grammar::specs::Expressions::expr))]
    fn expr(&mut self, names: &[Declared], depth: usize) -> Result<Expr, ReadRefusal>
        ensures { Gives result self.new (expr names.now depth self.old) }
    {
        let left = self.sum(names, depth)?;
        match comparison_of(self.token()) {
            None => Ok(left),
            Some(op) => {
                self.take()?;
                let right = self.sum(names, depth)?;
                Ok(two(self.alloc, op, left, right)?)
            }
        }
    }

    /// Reads a whole expression.
    #[tactic(auto, unfolding(nest_grammar::specs::Expressions::expression))]
    pub fn expression(&mut self, names: &[Declared]) -> Result<Expr, ReadRefusal>
        ensures { Gives result self.new (expression names.now self.old) }
    {
        self.spent = 0;
        self.expr(names, MOST_OPEN)
    }
}
