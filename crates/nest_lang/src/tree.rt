//! The tree of a nest.
//!
//! Names are resolved in it: a variable says which scalar, which loop's name or which local it is, and
//! each access of a block has its number, from 1, in the order of evaluation.

ghost use Rattle.std.specs.Prelude.{◌≡◌, length};

use sqlite_items::{Boxed, Items};

/// Why a step stops.
#[derive(Clone, Copy, Debug, PartialEq, Eq)]
pub enum Trap {
    /// The exact value is no i64.
    Overflow,
    /// A division or a remainder by 0.
    ZeroDivisor,
    /// There is no word at this address.
    Outside(i64),
}

/// An operator with two operands.
#[derive(Clone, Copy, Debug, PartialEq, Eq)]
pub enum Op {
    Add,
    Sub,
    Mul,
    Div,
    Rem,
    Eq,
    Ne,
    Lt,
    Le,
    Gt,
    Ge,
}

/// What a name stands for, each numbered from 0: a scalar of the file, the name of a loop (0 is the
/// outermost), or a local of the block.
#[derive(Clone, Copy, Debug, PartialEq, Eq)]
pub enum Place {
    Scalar(u8),
    Counter(u8),
    Local(u8),
}

/// An expression. A load has its access number, from 1, and its address.
#[derive(Debug, Drop)]
pub enum Expr {
    Number(i64),
    Var(Place),
    Load(u8, Boxed<Expr>),
    Neg(Boxed<Expr>),
    Two(Op, Boxed<Expr>, Boxed<Expr>),
}

/// A statement: a local or a scalar set to a value, a store (its access number, address and value),
/// or a choice between two lists of statements.
#[derive(Debug, Drop)]
pub enum Stmt {
    Let(u8, Expr),
    Set(u8, Expr),
    Store(u8, Expr, Expr),
    If(Expr, Items<Stmt>, Items<Stmt>),
}

/// The head of a loop: lower bound, upper bound and stride of a `for`, or the condition of a `while`.
#[derive(Debug, Drop)]
pub enum Head {
    For(Expr, Expr, i64),
    While(Expr),
}

/// A loop: its head, and its statements before and after the loop inside it. The statements of an
/// innermost loop are all before.
#[derive(Debug, Drop)]
pub struct Loop {
    pub head: Head,
    pub pre: Items<Stmt>,
    pub post: Items<Stmt>,
}

/// A nest: its loops, the outermost first.
#[derive(Debug, Drop)]
pub struct Nest {
    pub loops: Items<Loop>,
}

/// Which part of a loop a block is.
#[derive(Clone, Copy, Debug, Default, PartialEq, Eq)]
pub enum Part {
    #[default]
    Head,
    Pre,
    Post,
}

/// A block of a nest: a part of the loop at a level, from 1 for the outermost.
#[derive(Clone, Copy, Debug, Default, PartialEq, Eq)]
pub struct BlockRef {
    pub part: Part,
    pub level: u8,
}

/// What an access does with its word.
#[derive(Clone, Copy, Debug, Default, PartialEq, Eq)]
pub enum AccessKind {
    #[default]
    Load,
    Store,
}

/// An access of a block: its number in the block, from 1, and what it does.
#[derive(Clone, Copy, Debug, Default, PartialEq, Eq)]
pub struct Access {
    pub number: u8,
    pub kind: AccessKind,
}

/// An access of a nest: the number of its block among the present ones, from 0, and its own number in
/// that block, from 1.
#[derive(Clone, Copy, Debug, PartialEq, Eq)]
pub struct AccessRef {
    pub block: u8,
    pub access: u8,
}

impl Nest {
    /// The number of loops.
    pub fn depth(&self) -> usize
        ensures { result ≡ length self.now.loops }
    {
        self.loops.len()
    }
}
