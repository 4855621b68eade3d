//! Register code of blocks and expressions.

ghost use Rattle.std.specs.Prelude.{◌≡◌, get_or, slice_set, pos};

use nest_lang::{Op, Place};
use sqlite_items::Items;

/// A value that stays throughout an instance: a number, or the value of a loop's name, by number. The k-th
/// input of a code stands in register 128 + k as an instance begins.
#[derive(Clone, Copy, Debug, PartialEq, Eq)]
pub enum Input {
    Number(i64),
    Counter(u8),
}

/// An instruction. It sets one register: to the word that a load finds (access, register, register of its
/// address), to the value of a name (register, name), to a value with the other sign (register, operand), or
/// to the value of an operator (register, left and right operand). Operands are registers.
#[derive(Clone, Copy, Debug, PartialEq, Eq)]
pub enum Instruction {
    Load(u8, u8, u8),
    Name(u8, Place),
    Neg(u8, u8),
    Add(u8, u8, u8),
    Sub(u8, u8, u8),
    Mul(u8, u8, u8),
    Two(Op, u8, u8, u8),
}

/// How a step ends when its instructions are run: it sets a local or a scalar (number, register), stores a
/// word (access, registers of its address and its value), or skips so many acts where a register is 0.
#[derive(Clone, Copy, Debug, PartialEq, Eq)]
pub enum End {
    Let(u8, u8),
    Set(u8, u8),
    Store(u8, u8, u8),
    Unless(u8, u32),
}

/// A step, or acts to skip.
#[derive(Debug, Drop)]
pub enum Act {
    Step(Items<Instruction>, End),
    Skip(u32),
}

/// The code of a block.
#[derive(Debug, Drop)]
pub struct BlockCode {
    pub(crate) inputs: Items<Input>,
    pub(crate) acts: Items<Act>,
}

/// The code of an expression, and the register that its value is then in.
#[derive(Debug, Drop)]
pub struct ValueCode {
    pub(crate) inputs: Items<Input>,
    pub(crate) instructions: Items<Instruction>,
    pub(crate) register: u8,
}

/// The code of the bounds of a `for`.
#[derive(Debug, Drop)]
pub struct BoundsCode {
    pub(crate) lower: ValueCode,
    pub(crate) upper: ValueCode,
}

/// The registers that code works on. What they hold between two instances is no matter.
#[derive(Debug, Drop)]
pub struct Registers {
    pub(crate) values: [i64; 256],
}

impl Registers {
    /// Registers that are all 0.
    pub fn new() -> Registers {
        Registers { values: [0; 256] }
    }

    /// What a register holds.
    #[inline(always)]
    pub(crate) fn get(&self, register: u8) -> i64
        ensures { result ≡ get_or self.now.values register (pos 0) }
    {
        self.values[register as usize]
    }

    /// Sets a register.
    #[inline(always)]
    pub(crate) fn set(&mut self, register: u8, value: i64)
        ensures { self.new.values ≡ slice_set self.old.values register value }
    {
        self.values[register as usize] = value;
    }
}
