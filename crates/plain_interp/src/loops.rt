//! Loops inside one another.

ghost use Rattle.std.specs.Prelude.{◌≡◌, ◌+◌, ◌<◌, ◌≤◌, ◌^◌, ◌∷◌, length, IsOk, IfSome};
ghost use Rattle.nest_lang.specs.declared.tree.Head.TheVariants.{While};
ghost use Rattle.nest_lang.specs.Values.{turn_value};
ghost use Rattle.nest_lang.specs.Statements.{instance_trace};
ghost use Rattle.nest_lang.specs.Loops.{turns_from, inward, frame_of};
ghost use Rattle.block_exec.specs.Sites.{around_at};
ghost use Rattle.block_exec.specs.Moments.{Ran, RanWithin};
ghost use Rattle.block_exec.specs.Halts.{TurnsFit, finish_of};
ghost use Rattle.block_exec.specs.Runs.{Kept, outside};
ghost use Rattle.block_exec.specs.Coded.{IsBlockCode, IsValueCode};
ghost use Rattle.block_exec.specs.NestCodes.{AreLoopCodes};
ghost use Rattle.plain_interp.specs.Levels.{IfFor, IfWhile, IsLevel, level_trace, level_turn};

use block_exec::{
    BlockCode, Bounds, BoundsCode, Cut, LoopCode, Places, Port, Registers, Run, ValueCode, Watch,
};
use nest_lang::{BlockRef, Expr, Head, Loop, Part, Stmt, value_of_turn};

/// A level of a nest: a loop, the loops inside of it, the outermost first, the number of those around it, and the
/// code of these loops, of each its own. A loop without code is run by its trees.
#[derive(Clone, Copy, Debug)]
pub struct Level<'a> {
    pub first: &'a Loop,
    pub rest: &'a [Loop],
    pub depth: usize,
    pub codes: &'a [LoopCode],
}

impl<'a> Level<'a> {
    /// A block of this level's loop.
    pub fn block(&self, part: Part) -> BlockRef
        requires { self.now.depth < 6 }
        ensures { result ≡ record { part = part; level = self.now.depth + 1 } }
    {
        BlockRef {
            part,
            level: self.depth as u8 + 1,
        }
    }

    /// The code of the bounds of this level's loop.
    fn bounds_code(&self) -> Option<&'a BoundsCode>
        requires { AreLoopCodes (self.now.first.now ∷ self.now.rest.now) self.now.codes.now }
        ensures { IfSome result (λ c. IfFor self.now.first.now.head (λ lower upper. IsValueCode lower c.now.lower × IsValueCode upper c.now.upper)) }
    {
        match self.codes.split_first() {
            Some((code, _)) => code.bounds(),
            None => None,
        }
    }

    /// The code of the condition of this level's loop.
    fn condition_code(&self) -> Option<&'a ValueCode>
        requires { AreLoopCodes (self.now.first.now ∷ self.now.rest.now) self.now.codes.now }
        ensures { IfSome result (λ c. IfWhile self.now.first.now.head (λ condition. IsValueCode condition c.now)) }
    {
        match self.codes.split_first() {
            Some((code, _)) => code.condition(),
            None => None,
        }
    }

    /// The code of the statements before the loop inside.
    fn pre_code(&self) -> Option<&'a BlockCode>
        requires { AreLoopCodes (self.now.first.now ∷ self.now.rest.now) self.now.codes.now }
        ensures { IfSome result (λ c. IsBlockCode self.now.first.now.pre c.now) }
    {
        match self.codes.split_first() {
            Some((code, _)) => code.pre(),
            None => None,
        }
    }

    /// The code of the statements after the loop inside.
    fn post_code(&self) -> Option<&'a BlockCode>
        requires { AreLoopCodes (self.now.first.now ∷ self.now.rest.now) self.now.codes.now }
        ensures { IfSome result (λ c. IsBlockCode self.now.first.now.post c.now) }
    {
        match self.codes.split_first() {
            Some((code, _)) => code.post(),
            None => None,
        }
    }

    /// The code of the loops inside.
    fn inner_codes(&self) -> &'a [LoopCode]
        requires { AreLoopCodes (self.now.first.now ∷ self.now.rest.now) self.now.codes.now }
        ensures { AreLoopCodes self.now.rest.now result.now }
    {
        match self.codes.split_first() {
            Some((_, rest)) => rest,
            None => &[],
        }
    }
}

/// Runs the loop of a level. Of the places it reads those of the loops around it, and leaves them as they
/// are.
#[cycle(loops)]
#[inline(never)]
pub fn run_loop<P: Port, W: Watch>(
    run: &mut Run<'_, P, W>,
    at: &Level<'_>,
    places: &mut Places,
    registers: &mut Registers,
) -> Result<(), Cut>
    requires steps { run.old.steps.left + run.old.steps.used ≤ 2 ^ 32 }
    requires scalars { length run.old.scalars.now ≤ 256 }
    requires level { IsLevel at.now }
    ensures ran { RanWithin W.may (level_trace (P.expects run.old.port.now) at.now (around_at at.now.depth places.old)) (outside P.memory run.old) (outside P.memory run.new) (finish_of result run.new.halt) }
    ensures kept { Kept P.expects P.basis run.old run.new }
    ensures places { around_at at.now.depth places.new ≡ around_at at.now.depth places.old }
    ensures stepped { IsOk result → run.new.steps.left < run.old.steps.left }
{
    match &at.first.head {
        Head::For(lower, upper, stride) => {
            let site = places.site(at.block(Part::Head), at.depth);
            let bounds = run.bounds_by(&site, lower, upper, *stride, at.bounds_code(), registers)?;
            run_for(run, bounds, at, places, registers)
        }
        Head::While(condition) => run_while(run, condition, at, places, registers),
    }
}

/// Runs the turns of a `for` that was entered.
#[cycle(loops)]
fn run_for<P: Port, W: Watch>(
    run: &mut Run<'_, P, W>,
    bounds: Bounds,
    at: &Level<'_>,
    places: &mut Places,
    registers: &mut Registers,
) -> Result<(), Cut>
    requires steps { run.old.steps.left + run.old.steps.used ≤ 2 ^ 32 }
    requires scalars { length run.old.scalars.now ≤ 256 }
    requires level { IsLevel at.now }
    requires turns { TurnsFit bounds }
    ensures ran { RanWithin W.may
        (λ k. turns_from bounds.trip 0 (λ t. level_turn (P.expects run.old.port.now) at.now (inward (around_at at.now.depth places.old) t (turn_value bounds.lower bounds.stride t)) k))
        (outside P.memory run.old) (outside P.memory run.new) (finish_of result run.new.halt) }
    ensures kept { Kept P.expects P.basis run.old run.new }
    ensures places { around_at at.now.depth places.new ≡ around_at at.now.depth places.old }
{
    for turn in 0..bounds.trip {
        let value = value_of_turn(bounds.lower, bounds.stride, turn);
        places.begin(at.depth, turn, value);
        run_turn(run, at, places, registers)?;
    }
    Ok(())
}

/// Runs a `while` with this condition.
#[cycle(loops)]
fn run_while<P: Port, W: Watch>(
    run: &mut Run<'_, P, W>,
    condition: &Expr,
    at: &Level<'_>,
    places: &mut Places,
    registers: &mut Registers,
) -> Result<(), Cut>
    requires steps { run.old.steps.left + run.old.steps.used ≤ 2 ^ 32 }
    requires scalars { length run.old.scalars.now ≤ 256 }
    requires level { IsLevel at.now }
    requires head { at.now.first.now.head ≡ While condition.now }
    ensures ran { RanWithin W.may (level_trace (P.expects run.old.port.now) at.now (around_at at.now.depth places.old)) (outside P.memory run.old) (outside P.memory run.new) (finish_of result run.new.halt) }
    ensures kept { Kept P.expects P.basis run.old run.new }
    ensures places { around_at at.now.depth places.new ≡ around_at at.now.depth places.old }
    ensures stepped { IsOk result → run.new.steps.left < run.old.steps.left }
{
    let mut turn = 0u64;
    'turns: loop {
        places.begin(at.depth, turn, turn as i64);
        let site = places.site(at.block(Part::Head), at.depth + 1);
        if !run.condition_by(&site, condition, at.condition_code(), registers)? {
            return Ok(());
        }
        run_turn(run, at, places, registers)?;
        turn += 1;
    }
}

/// Runs one turn of a level's loop, whose turn number and value are set: the block before the inner
/// loops, these, and the block after them.
#[cycle(loops)]
#[inline(always)]
pub fn run_turn<P: Port, W: Watch>(
    run: &mut Run<'_, P, W>,
    at: &Level<'_>,
    places: &mut Places,
    registers: &mut Registers,
) -> Result<(), Cut>
    requires steps { run.old.steps.left + run.old.steps.used ≤ 2 ^ 32 }
    requires scalars { length run.old.scalars.now ≤ 256 }
    requires level { IsLevel at.now }
    ensures ran { RanWithin W.may (level_turn (P.expects run.old.port.now) at.now (around_at (at.now.depth + 1) places.old)) (outside P.memory run.old) (outside P.memory run.new) (finish_of result run.new.halt) }
    ensures kept { Kept P.expects P.basis run.old run.new }
    ensures places { around_at (at.now.depth + 1) places.new ≡ around_at (at.now.depth + 1) places.old }
    ensures stepped { IsOk result → run.new.steps.left < run.old.steps.left }
{
    let pre = at.first.pre.as_slice();
    run_part(run, at, Part::Pre, pre, at.pre_code(), places, registers)?;
    if let Some((first, rest)) = at.rest.split_first() {
        let inner = Level {
            first,
            rest,
            depth: at.depth + 1,
            codes: at.inner_codes(),
        };
        run_loop(run, &inner, places, registers)?;
    }
    let post = at.first.post.as_slice();
    run_part(run, at, Part::Post, post, at.post_code(), places, registers)
}

/// Runs an instance of a block of a level's loop, in the turn that is set; there is none of a block without
/// statements.
fn run_part<P: Port, W: Watch>(
    run: &mut Run<'_, P, W>,
    at: &Level<'_>,
    part: Part,
    block: &[Stmt],
    code: Option<&BlockCode>,
    places: &Places,
    registers: &mut Registers,
) -> Result<(), Cut>
    requires steps { run.old.steps.left + run.old.steps.used ≤ 2 ^ 32 }
    requires scalars { length run.old.scalars.now ≤ 256 }
    requires depth { at.now.depth < 6 }
    requires code { IfSome code (λ c. IsBlockCode block.now c.now) }
    ensures ran { Ran W.may (instance_trace (frame_of (P.expects run.old.port.now) part (at.now.depth + 1) (around_at (at.now.depth + 1) places.now)) block.now) (outside P.memory run.old) (outside P.memory run.new) (finish_of result run.new.halt) }
    ensures kept { Kept P.expects P.basis run.old run.new }
{
    if block.is_empty() {
        return Ok(());
    }
    let site = places.site(at.block(part), at.depth + 1);
    run.block_by(&site, block, code, registers)
}
