//! From trees to register code.

ghost use Rattle.std.specs.Prelude.{◌≡◌, ◌+◌, ◌<◌, ◌≤◌, ◌++◌, ◌∷◌, ℕ, List, [], Some, IfOk, OnOk, IfSome, length, slice_get};
ghost use Rattle.nest_lang.specs.declared.tree.Expr.TheVariants.{Var};
ghost use Rattle.block_exec.specs.declared.code.Act.{Act};
ghost use Rattle.block_exec.specs.declared.code.Instruction.{Instruction};
ghost use Rattle.block_exec.specs.Coded.{Begins, IsActs, IsBlockCode, IsCode, IsOperation, IsValueCode};

use crate::code::{Act, BlockCode, End, Input, Instruction, ValueCode};
use nest_lang::{Expr, Op, Place, Stmt};
use sqlite_items::Items;
use std::alloc::{AllocError, Global};

/// Why there is no code.
#[derive(Debug, Drop)]
pub(crate) enum CodeError {
    /// No memory.
    Memory(AllocError),
    /// It needs more registers than there are, or a branch has too many acts.
    TooLarge,
}

impl From<AllocError> for CodeError {
    fn from(error: AllocError) -> CodeError {
        CodeError::Memory(error)
    }
}

/// The code of a block, or None where it needs more registers than there are, or a branch has a million
/// acts. Only want of memory is an error.
pub fn block_code(alloc: Global, block: &[Stmt]) -> Result<Option<BlockCode>, AllocError>
    ensures { IfOk result (λ code. IfSome code (λ c. IsBlockCode block.now c)) }
{
    match block_code_of(alloc, block) {
        Ok(code) => Ok(Some(code)),
        Err(CodeError::TooLarge) => Ok(None),
        Err(CodeError::Memory(error)) => Err(error),
    }
}

/// The code of an expression, or None where it needs more registers than there are. Only want of memory is
/// an error.
pub fn value_code(alloc: Global, expr: &Expr) -> Result<Option<ValueCode>, AllocError>
    ensures { IfOk result (λ code. IfSome code (λ c. IsValueCode expr.now c)) }
{
    match value_code_of(alloc, expr) {
        Ok(code) => Ok(Some(code)),
        Err(CodeError::TooLarge) => Ok(None),
        Err(CodeError::Memory(error)) => Err(error),
    }
}

fn block_code_of(alloc: Global, block: &[Stmt]) -> Result<BlockCode, CodeError>
    ensures { IfOk result (λ c. IsBlockCode block.now c) }
{
    let mut inputs = Items::new(alloc);
    let acts = acts_of(alloc, block, &mut inputs)?;
    Ok(BlockCode { inputs, acts })
}

fn value_code_of(alloc: Global, expr: &Expr) -> Result<ValueCode, CodeError>
    ensures { IfOk result (λ c. IsValueCode expr.now c) }
{
    let mut inputs = Items::new(alloc);
    let mut instructions = Items::new(alloc);
    let register = push_expression(expr, 0, &mut inputs, &mut instructions)?;
    Ok(ValueCode {
        inputs,
        instructions,
        register,
    })
}

/// The acts of a block.
#[cycle(compile)]
fn acts_of(
    alloc: Global,
    block: &[Stmt],
    inputs: &mut Items<Input>,
) -> Result<Items<Act>, CodeError>
    requires { length inputs.old ≤ 128 }
    ensures acts { IfOk result (λ acts. IsActs inputs.new block.now acts) }
    ensures begins { OnOk result (Begins inputs.old inputs.new × (length inputs.new ≤ 128)) }
{
    let mut acts = Items::new(alloc);
    for statement in block {
        push_statement(alloc, statement, inputs, &mut acts)?;
    }
    Ok(acts)
}

/// Puts the acts of a statement behind others.
#[cycle(compile)]
fn push_statement(
    alloc: Global,
    statement: &Stmt,
    inputs: &mut Items<Input>,
    acts: &mut Items<Act>,
) -> Result<(), CodeError>
    requires { length inputs.old ≤ 128 }
    ensures acts { OnOk result ((code : List Act) × (acts.new ≡ acts.old ++ code) × IsActs inputs.new (statement.now ∷ []) code) }
    ensures begins { OnOk result (Begins inputs.old inputs.new × (length inputs.new ≤ 128)) }
{
    let mut parts = Items::new(alloc);
    match statement {
        Stmt::Let(number, value) => {
            let value = push_expression(value, 0, inputs, &mut parts)?;
            acts.push(Act::Step(parts, End::Let(*number, value)))?;
            Ok(())
        }
        Stmt::Set(number, value) => {
            let value = push_expression(value, 0, inputs, &mut parts)?;
            acts.push(Act::Step(parts, End::Set(*number, value)))?;
            Ok(())
        }
        Stmt::Store(access, address, value) => {
            let address = push_expression(address, 0, inputs, &mut parts)?;
            let value = push_expression(value, 1, inputs, &mut parts)?;
            acts.push(Act::Step(parts, End::Store(*access, address, value)))?;
            Ok(())
        }
        Stmt::If(condition, first, second) => {
            let condition = push_expression(condition, 0, inputs, &mut parts)?;
            let first = acts_of(alloc, first.as_slice(), inputs)?;
            let second = acts_of(alloc, second.as_slice(), inputs)?;
            let past_first = count(first.len() + 1)?;
            let past_second = count(second.len())?;
            acts.push(Act::Step(parts, End::Unless(condition, past_first)))?;
            acts.append(first)?;
            acts.push(Act::Skip(past_second))?;
            acts.append(second)?;
            Ok(())
        }
    }
}

/// A number of acts to skip.
fn count(acts: usize) -> Result<u32, CodeError>
    ensures { IfOk result (λ count. count ≡ acts) }
{
    if acts < 1000000 {
        Ok(acts as u32)
    } else {
        Err(CodeError::TooLarge)
    }
}

/// Puts the instructions of an expression behind others. Its value is then in the register that this
/// gives; those before `depth` stay.
fn push_expression(
    expr: &Expr,
    depth: u8,
    inputs: &mut Items<Input>,
    parts: &mut Items<Instruction>,
) -> Result<u8, CodeError>
    requires depth { depth < 128 }
    requires few { length inputs.old ≤ 128 }
    ensures code { IfOk result (λ register. (code : List Instruction) × (parts.new ≡ parts.old ++ code) × IsCode inputs.new expr.now depth code register) }
    ensures begins { OnOk result (Begins inputs.old inputs.new × (length inputs.new ≤ 128)) }
{
    match expr {
        Expr::Number(number) => {
            let register = input_register(Input::Number(*number), inputs)?;
            Ok(register)
        }
        Expr::Var(place) => {
            let register = push_name(*place, depth, inputs, parts)?;
            Ok(register)
        }
        Expr::Load(access, address) => {
            let address = push_expression(address.get(), depth, inputs, parts)?;
            parts.push(Instruction::Load(*access, depth, address))?;
            Ok(depth)
        }
        Expr::Neg(value) => {
            let value = push_expression(value.get(), depth, inputs, parts)?;
            parts.push(Instruction::Neg(depth, value))?;
            Ok(depth)
        }
        Expr::Two(op, left, right) => {
            if depth >= 127 {
                return Err(CodeError::TooLarge);
            }
            let left = push_expression(left.get(), depth, inputs, parts)?;
            let right = push_expression(right.get(), depth + 1, inputs, parts)?;
            parts.push(operation(*op, depth, left, right))?;
            Ok(depth)
        }
    }
}

/// The same of a name. The values of loops' names are inputs; scalars and locals may change within a block, so
/// they are read where they are used.
fn push_name(
    place: Place,
    depth: u8,
    inputs: &mut Items<Input>,
    parts: &mut Items<Instruction>,
) -> Result<u8, CodeError>
    requires depth { depth < 128 }
    requires few { length inputs.old ≤ 128 }
    ensures code { IfOk result (λ register. (code : List Instruction) × (parts.new ≡ parts.old ++ code) × IsCode inputs.new (Var place) depth code register) }
    ensures begins { OnOk result (Begins inputs.old inputs.new × (length inputs.new ≤ 128)) }
{
    match place {
        Place::Counter(number) => {
            let register = input_register(Input::Counter(number), inputs)?;
            Ok(register)
        }
        Place::Scalar(_) | Place::Local(_) => {
            parts.push(Instruction::Name(depth, place))?;
            Ok(depth)
        }
    }
}

/// The instruction of an operator.
#[tactic(auto, unfolding(crate::specs::Codes::instruction_gone))]
fn operation(op: Op, to: u8, left: u8, right: u8) -> Instruction
    ensures { IsOperation op to left right result }
{
    match op {
        Op::Add => Instruction::Add(to, left, right),
        Op::Sub => Instruction::Sub(to, left, right),
        Op::Mul => Instruction::Mul(to, left, right),
        op => Instruction::Two(op, to, left, right),
    }
}

/// The register of an input, which is put behind the others where it is not yet one of them.
fn input_register(input: Input, inputs: &mut Items<Input>) -> Result<u8, CodeError>
    requires { length inputs.old ≤ 128 }
    ensures register { IfOk result (λ register. (i : ℕ) × (register ≡ 128 + i) × (slice_get inputs.new i ≡ Some input)) }
    ensures begins { OnOk result (Begins inputs.old inputs.new × (length inputs.new ≤ 128)) }
{
    if let Some(at) = number_of_input(inputs.as_slice(), input) {
        return Ok(128 + at as u8);
    }
    let at = inputs.len();
    if at >= 128 {
        return Err(CodeError::TooLarge);
    }
    inputs.push(input)?;
    Ok(128 + at as u8)
}

/// The number of an input among others.
fn number_of_input(inputs: &[Input], input: Input) -> Option<usize>
    ensures { IfSome result (λ at. slice_get inputs.now at ≡ Some input) }
{
    for at in 0..inputs.len() {
        if inputs[at] == input {
            return Some(at);
        }
    }
    None
}
