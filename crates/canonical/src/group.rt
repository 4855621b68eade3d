//! How expressions group.

ghost use Rattle.std.specs.Prelude.{◌≡◌};
ghost use Rattle.canonical.specs.Groups.{fits, made_by, left_of, right_of, mark_of};

use nest_lang::Op;
use nest_tokens::Mark;

/// A group of expressions; each holds the ones before it.
#[derive(Clone, Copy, Debug, PartialEq, Eq)]
pub enum Group {
    Unary,
    Term,
    Sum,
    Whole,
}

impl Group {
    /// The group that an operator makes.
    pub fn made_by(op: Op) -> Group
        ensures { result ≡ made_by op }
    {
        match op {
            Op::Mul | Op::Div | Op::Rem => Group::Term,
            Op::Add | Op::Sub => Group::Sum,
            Op::Eq | Op::Ne | Op::Lt | Op::Le | Op::Gt | Op::Ge => Group::Whole,
        }
    }

    /// The group that an operator wants on its left.
    pub fn left_of(op: Op) -> Group
        ensures { result ≡ left_of op }
    {
        match op {
            Op::Mul | Op::Div | Op::Rem => Group::Term,
            Op::Add | Op::Sub | Op::Eq | Op::Ne | Op::Lt | Op::Le | Op::Gt | Op::Ge => Group::Sum,
        }
    }

    /// The group that an operator wants on its right.
    pub fn right_of(op: Op) -> Group
        ensures { result ≡ right_of op }
    {
        match op {
            Op::Mul | Op::Div | Op::Rem => Group::Unary,
            Op::Add | Op::Sub => Group::Term,
            Op::Eq | Op::Ne | Op::Lt | Op::Le | Op::Gt | Op::Ge => Group::Sum,
        }
    }

    /// Whether an expression of this group may stand where one of another is wanted.
    #[tactic(auto, unfolding(crate::specs::Groups::fits))]
    pub fn fits(self, wanted: Group) -> bool
        ensures { result ≡ fits self wanted }
    {
        match (self, wanted) {
            (Group::Unary, _) | (Group::Term, Group::Term) => true,
            (_, Group::Whole) => true,
            (Group::Term | Group::Sum, Group::Sum) => true,
            _ => false,
        }
    }
}

/// The sign of an operator.
pub fn mark_of(op: Op) -> Mark
    ensures { result ≡ mark_of op }
{
    match op {
        Op::Add => Mark::Plus,
        Op::Sub => Mark::Minus,
        Op::Mul => Mark::Times,
        Op::Div => Mark::Divide,
        Op::Rem => Mark::Remainder,
        Op::Eq => Mark::Equal,
        Op::Ne => Mark::NotEqual,
        Op::Lt => Mark::Less,
        Op::Le => Mark::AtMost,
        Op::Gt => Mark::Greater,
        Op::Ge => Mark::AtLeast,
    }
}
