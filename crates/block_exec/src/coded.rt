//! Execution of register code.

ghost use Rattle.std.specs.Prelude.{◌≡◌, ◌≢◌, ◌+◌, ◌≤◌, ◌<◌, ◌^◌, IfOk, IfSome, if◌then◌else◌, length, pos};
ghost use Rattle.nest_lang.specs.declared.tree.Head.TheVariants.{For, While};
ghost use Rattle.nest_lang.specs.declared.tree.Op.TheVariants.{Add, Sub, Mul};
ghost use Rattle.nest_lang.specs.Values.{same, apply_of};
ghost use Rattle.nest_lang.specs.Heads.{head_of};
ghost use Rattle.nest_lang.specs.Heads as heads;
ghost use Rattle.nest_lang.specs.Statements.{instance_trace, block_trace};
ghost use Rattle.block_exec.specs.Halts.{TurnsFit, answer_of, bounds_yield, finish_of, yield_of, yield_where_left};
ghost use Rattle.block_exec.specs.Moments.{Evaluated, Ran};
ghost use Rattle.block_exec.specs.Sites.{frame_at};
ghost use Rattle.block_exec.specs.Watches.{Chain};
ghost use Rattle.block_exec.specs.Runs.{Kept, Looked, told_at, within, outside};
ghost use Rattle.block_exec.specs.Codes.{input_value, shown_by, done_by, acts_trace};
ghost use Rattle.block_exec.specs.Coded.{Acted, HoldInputs, IsBlockCode, IsDone, IsValueCode, instruction_at, instructions_at, registers_of};

use crate::code::{Act, BlockCode, BoundsCode, End, Input, Instruction, Registers, ValueCode};
use crate::context::Run;
use crate::halt::{Cut, Halted};
use crate::head::{Bounds, is_not_zero, number_of};
use crate::port::Port;
use crate::site::Site;
use crate::statement::put;
use crate::watch::Watch;
use nest_lang::{Expr, Seen, Stmt, Trap, apply, negate, trip_of};

impl Registers {
    /// Puts the inputs of a code, at most 128, into their registers.
    #[inline(always)]
    fn fill(&mut self, site: &Site<'_>, inputs: &[Input])
        requires { length inputs.now ≤ 128 }
        ensures holds { HoldInputs site.now.values.now inputs.now self.new.values }
        ensures room { length self.new.values ≡ 256 }
    {
        for at in 0..inputs.len() {
            self.values[128 + at] = input_value(site, inputs[at]);
        }
    }
}

/// The value of an input; 0 where there is no such name.
#[inline(always)]
fn input_value(site: &Site<'_>, input: Input) -> i64
    ensures { result ≡ input_value site.now.values.now input }
{
    match input {
        Input::Number(number) => number,
        Input::Counter(number) => site.values.get(number as usize).copied().unwrap_or(0),
    }
}

impl<P: Port, W: Watch> Run<'_, P, W> {
    /// Runs one instance of a block as `block` does: by its code, where there is some, and else by its tree.
    pub fn block_by(
        &mut self,
        site: &Site<'_>,
        block: &[Stmt],
        code: Option<&BlockCode>,
        registers: &mut Registers,
    ) -> Result<(), Cut>
        requires code { IfSome code (λ c. IsBlockCode block.now c.now) }
        requires steps { self.old.steps.left + self.old.steps.used ≤ 2 ^ 32 }
        requires scalars { length self.old.scalars.now ≤ 256 }
        ensures ran { Ran W.may (instance_trace (frame_at site.now (P.expects self.old.port.now)) block.now) (outside P.memory self.old) (outside P.memory self.new) (finish_of result self.new.halt) }
        ensures kept { Kept P.expects P.basis self.old self.new }
    {
        match code {
            Some(code) => self.block_by_code(site, block, code, registers),
            None => self.block(site, block),
        }
    }

    /// Evaluates the head of a `for` as `bounds` does: by the code of its bounds, where there is some, and else
    /// by their trees.
    pub fn bounds_by(
        &mut self,
        site: &Site<'_>,
        lower: &Expr,
        upper: &Expr,
        stride: i64,
        code: Option<&BoundsCode>,
        registers: &mut Registers,
    ) -> Result<Bounds, Cut>
        requires code { IfSome code (λ c. IsValueCode lower.now c.now.lower × IsValueCode upper.now c.now.upper) }
        requires steps { self.old.steps.left + self.old.steps.used ≤ 2 ^ 32 }
        requires scalars { length self.old.scalars.now ≤ 256 }
        requires stride { stride ≢ pos 0 }
        ensures evaluated { Evaluated W.may (frame_at site.now (P.expects self.old.port.now)) (For lower.now upper.now stride) (outside P.memory self.old) (outside P.memory self.new) (yield_where_left bounds_yield result self.new.halt) }
        ensures kept { Kept P.expects P.basis self.old self.new }
        ensures turns { IfOk result (λ b. (b.stride ≡ stride) × TurnsFit b) }
    {
        match code {
            Some(code) => self.bounds_by_code(site, lower, upper, stride, code, registers),
            None => self.bounds(site, lower, upper, stride),
        }
    }

    /// Evaluates the head of a `while` as `condition` does: by the code of its condition, where there is some,
    /// and else by its tree.
    pub fn condition_by(
        &mut self,
        site: &Site<'_>,
        condition: &Expr,
        code: Option<&ValueCode>,
        registers: &mut Registers,
    ) -> Result<bool, Cut>
        requires code { IfSome code (λ c. IsValueCode condition.now c.now) }
        requires steps { self.old.steps.left + self.old.steps.used ≤ 2 ^ 32 }
        requires scalars { length self.old.scalars.now ≤ 256 }
        ensures evaluated { Evaluated W.may (frame_at site.now (P.expects self.old.port.now)) (While condition.now) (outside P.memory self.old) (outside P.memory self.new) (yield_where_left heads.Tested result self.new.halt) }
        ensures kept { Kept P.expects P.basis self.old self.new }
    {
        match code {
            Some(code) => self.condition_by_code(site, condition, code, registers),
            None => self.condition(site, condition),
        }
    }

    /// Runs one instruction.
    #[inline(always)]
    #[tactic(auto, using(crate::proofs::InstructionLaws::works), unfolding(crate::specs::Codes::instruction_gone))]
    fn instruction(
        &mut self,
        site: &Site<'_>,
        instruction: &Instruction,
        registers: &mut Registers,
    ) -> Result<(), Halted>
        ensures value { registers_of result registers.new.values self.new.halt ≡ (instruction_at P.memory P.expects site.now self.old instruction.now registers.old.values).registers }
        ensures watch { Chain W.may self.old.watch.now (instruction_at P.memory P.expects site.now self.old instruction.now registers.old.values).seen self.new.watch.now }
        ensures looked { Looked P.memory P.expects P.basis self.old self.new }
    {
        match *instruction {
            Instruction::Load(access, to, address) => {
                let word = self.load(site, access, registers.get(address))?;
                registers.set(to, word);
                Ok(())
            }
            Instruction::Name(to, place) => {
                let value = self.value(site, place);
                registers.set(to, value);
                Ok(())
            }
            Instruction::Neg(to, operand) => {
                let value = self.or_trap(negate(registers.get(operand)))?;
                registers.set(to, value);
                Ok(())
            }
            Instruction::Add(to, left, right) => {
                let value = self.or_trap(sum(registers.get(left), registers.get(right)))?;
                registers.set(to, value);
                Ok(())
            }
            Instruction::Sub(to, left, right) => {
                let value = self.or_trap(difference(registers.get(left), registers.get(right)))?;
                registers.set(to, value);
                Ok(())
            }
            Instruction::Mul(to, left, right) => {
                let value = self.or_trap(product(registers.get(left), registers.get(right)))?;
                registers.set(to, value);
                Ok(())
            }
            Instruction::Two(op, to, left, right) => {
                let value = self.or_trap(apply(op, registers.get(left), registers.get(right)))?;
                registers.set(to, value);
                Ok(())
            }
        }
    }

    /// Runs instructions, one after another.
    #[inline(always)]
    fn instructions(
        &mut self,
        site: &Site<'_>,
        instructions: &[Instruction],
        registers: &mut Registers,
    ) -> Result<(), Halted>
        ensures value { registers_of result registers.new.values self.new.halt ≡ (instructions_at P.memory P.expects site.now self.old instructions.now registers.old.values).registers }
        ensures watch { Chain W.may self.old.watch.now (instructions_at P.memory P.expects site.now self.old instructions.now registers.old.values).seen self.new.watch.now }
        ensures looked { Looked P.memory P.expects P.basis self.old self.new }
    {
        for one in instructions {
            self.instruction(site, one, registers)?;
        }
        Ok(())
    }

    /// Ends a step: the number of acts that it skips.
    #[inline(always)]
    #[tactic(auto, using(crate::proofs::ActLaws::finishes))]
    fn finish(&mut self, site: &Site<'_>, end: End, registers: &Registers) -> Result<u32, Halted>
        ensures done { IsDone (done_by (frame_at site.now (P.expects self.old.port.now)) end registers.now.values (within P.memory self.old).store) result self.new.halt (within P.memory self.old).store (within P.memory self.new).store }
        ensures watch { Chain W.may self.old.watch.now (shown_by (frame_at site.now (P.expects self.old.port.now)) end registers.now.values) self.new.watch.now }
        ensures steps { self.new.steps ≡ self.old.steps }
        ensures kept { Kept P.expects P.basis self.old self.new }
    {
        match end {
            End::Let(number, value) => {
                put(&mut self.locals, number, registers.get(value));
                Ok(0)
            }
            End::Set(number, value) => {
                put(self.scalars, number, registers.get(value));
                Ok(0)
            }
            End::Store(access, address, value) => {
                self.store(site, access, registers.get(address), registers.get(value))?;
                Ok(0)
            }
            End::Unless(condition, acts) => Ok(skipped(registers.get(condition), acts)),
        }
    }

    /// Runs one act: the number of the next.
    #[inline(always)]
    fn act(
        &mut self,
        site: &Site<'_>,
        acts: &[Act],
        at: usize,
        registers: &mut Registers,
    ) -> Result<usize, Cut>
        requires at { at < length acts.now }
        requires steps { self.old.steps.left + self.old.steps.used ≤ 2 ^ 32 }
        ensures acted { Acted W.may (frame_at site.now (P.expects self.old.port.now)) acts.now at registers.old.values registers.new.values (within P.memory self.old) (within P.memory self.new) result self.new.halt }
        ensures next { IfOk result (λ next. at < next) }
        ensures kept { Kept P.expects P.basis self.old self.new }
    {
        match &acts[at] {
            Act::Skip(count) => Ok(at + 1 + *count as usize),
            Act::Step(instructions, end) => {
                if !self.steps.take() {
                    return Err(Cut::Limited);
                }
                self.instructions(site, instructions.as_slice(), registers)?;
                let skips = self.finish(site, *end, registers)?;
                Ok(at + 1 + skips as usize)
            }
        }
    }

    /// Runs acts to their end.
    fn acts(&mut self, site: &Site<'_>, acts: &[Act], registers: &mut Registers) -> Result<(), Cut>
        requires steps { self.old.steps.left + self.old.steps.used ≤ 2 ^ 32 }
        ensures ran { Ran W.may (acts_trace (frame_at site.now (P.expects self.old.port.now)) acts.now 0 registers.old.values) (within P.memory self.old) (within P.memory self.new) (finish_of result self.new.halt) }
        ensures kept { Kept P.expects P.basis self.old self.new }
    {
        let mut at = 0;
        'acts: while at < acts.len() {
            at = self.act(site, acts, at, registers)?;
        }
        Ok(())
    }

    /// Runs the statements of a block by their code, at the locals as they are.
    #[inline(always)]
    fn statements_by_code(
        &mut self,
        site: &Site<'_>,
        block: &[Stmt],
        code: &BlockCode,
        registers: &mut Registers,
    ) -> Result<(), Cut>
        requires code { IsBlockCode block.now code.now }
        requires steps { self.old.steps.left + self.old.steps.used ≤ 2 ^ 32 }
        ensures ran { Ran W.may (block_trace (frame_at site.now (P.expects self.old.port.now)) block.now) (within P.memory self.old) (within P.memory self.new) (finish_of result self.new.halt) }
        ensures kept { Kept P.expects P.basis self.old self.new }
    {
        registers.fill(site, code.inputs.as_slice());
        self.acts(site, code.acts.as_slice(), registers)
    }

    /// Runs one instance of a block by its code, as `block` does by its tree.
    fn block_by_code(
        &mut self,
        site: &Site<'_>,
        block: &[Stmt],
        code: &BlockCode,
        registers: &mut Registers,
    ) -> Result<(), Cut>
        requires code { IsBlockCode block.now code.now }
        requires steps { self.old.steps.left + self.old.steps.used ≤ 2 ^ 32 }
        requires scalars { length self.old.scalars.now ≤ 256 }
        ensures ran { Ran W.may (instance_trace (frame_at site.now (P.expects self.old.port.now)) block.now) (outside P.memory self.old) (outside P.memory self.new) (finish_of result self.new.halt) }
        ensures kept { Kept P.expects P.basis self.old self.new }
    {
        if block.is_empty() {
            return Ok(());
        }
        self.announce(site);
        self.locals = [0; 16];
        self.statements_by_code(site, block, code, registers)
    }

    /// Evaluates the head of a `for` by the code of its bounds, as `bounds` does by their trees.
    #[tactic(auto, using(crate::proofs::HeadLaws::heads))]
    fn bounds_by_code(
        &mut self,
        site: &Site<'_>,
        lower: &Expr,
        upper: &Expr,
        stride: i64,
        code: &BoundsCode,
        registers: &mut Registers,
    ) -> Result<Bounds, Cut>
        requires lower { IsValueCode lower.now code.now.lower }
        requires upper { IsValueCode upper.now code.now.upper }
        requires steps { self.old.steps.left + self.old.steps.used ≤ 2 ^ 32 }
        requires scalars { length self.old.scalars.now ≤ 256 }
        requires stride { stride ≢ pos 0 }
        ensures evaluated { Evaluated W.may (frame_at site.now (P.expects self.old.port.now)) (For lower.now upper.now stride) (outside P.memory self.old) (outside P.memory self.new) (yield_where_left bounds_yield result self.new.halt) }
        ensures kept { Kept P.expects P.basis self.old self.new }
        ensures turns { IfOk result (λ b. (b.stride ≡ stride) × TurnsFit b) }
    {
        self.announce(site);
        if !self.steps.take() {
            return Err(Cut::Limited);
        }
        self.locals = [0; 16];
        let bounds = self.bounds_here_by_code(site, lower, upper, stride, code, registers)?;
        Ok(bounds)
    }

    /// Evaluates the head of a `while` by the code of its condition, as `condition` does by its tree.
    #[tactic(auto, using(crate::proofs::HeadLaws::heads))]
    fn condition_by_code(
        &mut self,
        site: &Site<'_>,
        condition: &Expr,
        code: &ValueCode,
        registers: &mut Registers,
    ) -> Result<bool, Cut>
        requires code { IsValueCode condition.now code.now }
        requires steps { self.old.steps.left + self.old.steps.used ≤ 2 ^ 32 }
        requires scalars { length self.old.scalars.now ≤ 256 }
        ensures evaluated { Evaluated W.may (frame_at site.now (P.expects self.old.port.now)) (While condition.now) (outside P.memory self.old) (outside P.memory self.new) (yield_where_left heads.Tested result self.new.halt) }
        ensures kept { Kept P.expects P.basis self.old self.new }
    {
        self.announce(site);
        if !self.steps.take() {
            return Err(Cut::Limited);
        }
        self.locals = [0; 16];
        let holds = self.condition_here_by_code(site, condition, code, registers)?;
        Ok(holds)
    }

    /// The bounds of a `for`, at the locals as they are.
    #[tactic(auto, using(crate::proofs::ExpressionLaws::yields))]
    fn bounds_here_by_code(
        &mut self,
        site: &Site<'_>,
        lower: &Expr,
        upper: &Expr,
        stride: i64,
        code: &BoundsCode,
        registers: &mut Registers,
    ) -> Result<Bounds, Halted>
        requires lower { IsValueCode lower.now code.now.lower }
        requires upper { IsValueCode upper.now code.now.upper }
        requires stride { stride ≢ pos 0 }
        ensures value { yield_of bounds_yield result self.new.halt ≡ (head_of (frame_at site.now (P.expects self.old.port.now)) (For lower.now upper.now stride) (within P.memory self.old).store).value }
        ensures watch { Chain W.may self.old.watch.now (head_of (frame_at site.now (P.expects self.old.port.now)) (For lower.now upper.now stride) (within P.memory self.old).store).seen self.new.watch.now }
        ensures looked { Looked P.memory P.expects P.basis self.old self.new }
        ensures turns { IfOk result (λ b. (b.stride ≡ stride) × TurnsFit b) }
    {
        let from = self.value_by_code(site, lower, &code.lower, registers)?;
        let to = self.value_by_code(site, upper, &code.upper, registers)?;
        let trip = trip_of(from, to, stride);
        self.show_bounds(site, from, trip);
        Ok(Bounds {
            lower: from,
            stride,
            trip,
        })
    }

    /// Whether a condition holds, at the locals as they are.
    #[tactic(auto, using(crate::proofs::ExpressionLaws::yields))]
    fn condition_here_by_code(
        &mut self,
        site: &Site<'_>,
        condition: &Expr,
        code: &ValueCode,
        registers: &mut Registers,
    ) -> Result<bool, Halted>
        requires code { IsValueCode condition.now code.now }
        ensures value { yield_of heads.Tested result self.new.halt ≡ (head_of (frame_at site.now (P.expects self.old.port.now)) (While condition.now) (within P.memory self.old).store).value }
        ensures watch { Chain W.may self.old.watch.now (head_of (frame_at site.now (P.expects self.old.port.now)) (While condition.now) (within P.memory self.old).store).seen self.new.watch.now }
        ensures looked { Looked P.memory P.expects P.basis self.old self.new }
    {
        let value = self.value_by_code(site, condition, code, registers)?;
        let holds = is_not_zero(value);
        self.show(site, Seen::Condition, number_of(holds));
        Ok(holds)
    }

    /// The value of an expression by its code.
    #[inline(always)]
    fn value_by_code(
        &mut self,
        site: &Site<'_>,
        expr: &Expr,
        code: &ValueCode,
        registers: &mut Registers,
    ) -> Result<i64, Halted>
        requires code { IsValueCode expr.now code.now }
        ensures value { answer_of result self.new.halt ≡ (told_at P.memory P.expects site.now self.old expr.now).value }
        ensures watch { Chain W.may self.old.watch.now (told_at P.memory P.expects site.now self.old expr.now).seen self.new.watch.now }
        ensures looked { Looked P.memory P.expects P.basis self.old self.new }
    {
        registers.fill(site, code.inputs.as_slice());
        self.instructions(site, code.instructions.as_slice(), registers)?;
        Ok(registers.get(code.register))
    }
}

/// How many acts are skipped: all of them where the value is 0.
#[inline(always)]
fn skipped(value: i64, acts: u32) -> u32
    ensures { result ≡ (if same value (pos 0) then acts else 0) }
{
    if value == 0 { acts } else { 0 }
}

/// The sum of two values.
#[inline(always)]
#[tactic(auto, unfolding(nest_lang::specs::Values::apply_of))]
fn sum(left: i64, right: i64) -> Result<i64, Trap>
    ensures { result ≡ apply_of Add left right }
{
    let (value, over) = left.overflowing_add(right);
    if over { Err(Trap::Overflow) } else { Ok(value) }
}

/// The difference of two values.
#[inline(always)]
#[tactic(auto, unfolding(nest_lang::specs::Values::apply_of))]
fn difference(left: i64, right: i64) -> Result<i64, Trap>
    ensures { result ≡ apply_of Sub left right }
{
    let (value, over) = left.overflowing_sub(right);
    if over { Err(Trap::Overflow) } else { Ok(value) }
}

/// The product of two values.
#[inline(always)]
#[tactic(auto, unfolding(nest_lang::specs::Values::apply_of))]
fn product(left: i64, right: i64) -> Result<i64, Trap>
    ensures { result ≡ apply_of Mul left right }
{
    left.checked_mul(right).ok_or(Trap::Overflow)
}
