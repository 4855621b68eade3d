//! The accesses of a block, in the order of evaluation.

ghost use Rattle.std.specs.Prelude.{◌≡◌, ◌+◌, ◌≤◌, ◌++◌, length};
ghost use Rattle.arrayvec.specs.ArrayVec.{array_vec_len};
ghost use Rattle.nest_lang.specs.Accesses.{load as load_of, store as store_of, expression_accesses, statement_accesses, block_accesses, head_accesses, part_accesses, accesses_of};

use crate::tree::{Access, AccessKind, BlockRef, Expr, Head, Loop, Nest, Part, Stmt};
use arrayvec::ArrayVec;

impl Nest {
    /// The accesses of a block, in the order of evaluation: none where the nest has no such level.
    pub fn accesses(&self, block: BlockRef) -> ArrayVec<Access, 64>
        requires { length (accesses_of self.now.loops block) ≤ 64 }
        ensures { result.items ≡ accesses_of self.now.loops block }
    {
        let mut accesses = ArrayVec::new();
        if let Some(at) = self.level(block.level) {
            push_part(block.part, at, &mut accesses);
        }
        accesses
    }
}

fn load(number: u8) -> Access
    ensures { result ≡ load_of number }
{
    Access {
        number,
        kind: AccessKind::Load,
    }
}

fn store(number: u8) -> Access
    ensures { result ≡ store_of number }
{
    Access {
        number,
        kind: AccessKind::Store,
    }
}

/// The accesses of a part of a loop.
fn push_part(part: Part, at: &Loop, accesses: &mut ArrayVec<Access, 64>)
    requires { array_vec_len accesses.old + length (part_accesses part at.now) ≤ 64 }
    ensures items { accesses.new.items ≡ accesses.old.items ++ part_accesses part at.now }
    ensures len { array_vec_len accesses.new ≡ array_vec_len accesses.old + length (part_accesses part at.now) }
{
    match part {
        Part::Head => push_head(&at.head, accesses),
        Part::Pre => push_block(at.pre.as_slice(), accesses),
        Part::Post => push_block(at.post.as_slice(), accesses),
    }
}

/// The accesses of a head.
fn push_head(head: &Head, accesses: &mut ArrayVec<Access, 64>)
    requires { array_vec_len accesses.old + length (head_accesses head.now) ≤ 64 }
    ensures items { accesses.new.items ≡ accesses.old.items ++ head_accesses head.now }
    ensures len { array_vec_len accesses.new ≡ array_vec_len accesses.old + length (head_accesses head.now) }
{
    match head {
        Head::For(lower, upper, _) => {
            push_expression(lower, accesses);
            push_expression(upper, accesses);
        }
        Head::While(condition) => push_expression(condition, accesses),
    }
}

/// The accesses of statements, one after another.
#[cycle(push)]
fn push_block(block: &[Stmt], accesses: &mut ArrayVec<Access, 64>)
    requires { array_vec_len accesses.old + length (block_accesses block.now) ≤ 64 }
    ensures items { accesses.new.items ≡ accesses.old.items ++ block_accesses block.now }
    ensures len { array_vec_len accesses.new ≡ array_vec_len accesses.old + length (block_accesses block.now) }
{
    for statement in block {
        push_statement(statement, accesses);
    }
}

/// The accesses of a statement.
#[cycle(push)]
#[tactic(auto, using(crate::proofs::AccessLaws::statement_levels))]
fn push_statement(statement: &Stmt, accesses: &mut ArrayVec<Access, 64>)
    requires { array_vec_len accesses.old + length (statement_accesses statement.now) ≤ 64 }
    ensures items { accesses.new.items ≡ accesses.old.items ++ statement_accesses statement.now }
    ensures len { array_vec_len accesses.new ≡ array_vec_len accesses.old + length (statement_accesses statement.now) }
{
    match statement {
        Stmt::Let(_, value) => push_expression(value, accesses),
        Stmt::Set(_, value) => push_expression(value, accesses),
        Stmt::Store(number, address, value) => {
            push_expression(address, accesses);
            push_expression(value, accesses);
            accesses.push(store(*number));
        }
        Stmt::If(condition, first, second) => {
            push_expression(condition, accesses);
            push_block(first.as_slice(), accesses);
            push_block(second.as_slice(), accesses);
        }
    }
}

/// The accesses of an expression.
#[tactic(auto, using(crate::proofs::AccessLaws::expression_levels))]
fn push_expression(expression: &Expr, accesses: &mut ArrayVec<Access, 64>)
    requires { array_vec_len accesses.old + length (expression_accesses expression.now) ≤ 64 }
    ensures items { accesses.new.items ≡ accesses.old.items ++ expression_accesses expression.now }
    ensures len { array_vec_len accesses.new ≡ array_vec_len accesses.old + length (expression_accesses expression.now) }
{
    match expression {
        Expr::Number(_) => {}
        Expr::Var(_) => {}
        Expr::Load(number, address) => {
            push_expression(address.get(), accesses);
            accesses.push(load(*number));
        }
        Expr::Neg(operand) => push_expression(operand.get(), accesses),
        Expr::Two(_, left, right) => {
            push_expression(left.get(), accesses);
            push_expression(right.get(), accesses);
        }
    }
}
