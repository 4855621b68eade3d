//! Execution of statements.

ghost use Rattle.std.specs.Prelude.{◌≡◌, ◌+◌, ◌≤◌, ◌^◌, length, slice_set, unsigned_abs, IsOk, OnOk, OnErr, MatchResult, pos, if◌then◌else◌};
ghost use Rattle.nest_lang.specs.declared.observe.Seen.TheVariants.{Address};
ghost use Rattle.nest_lang.specs.Values.{same};
ghost use Rattle.nest_lang.specs.Lookups.{look_store};
ghost use Rattle.nest_lang.specs.Expressions.{or_stopped};
ghost use Rattle.nest_lang.specs.Statements.{statement_trace, block_trace, instance_trace};
ghost use Rattle.block_exec.specs.Watches.{observed};
ghost use Rattle.block_exec.specs.Halts.{halt_by, finish_of};
ghost use Rattle.block_exec.specs.Moments.{Ran};
ghost use Rattle.block_exec.specs.Sites.{frame_at};
ghost use Rattle.block_exec.specs.Runs.{Kept, Stored, within, outside};

use crate::context::Run;
use crate::halt::{Cut, Halted, halt_of};
use crate::port::Port;
use crate::site::Site;
use crate::watch::Watch;
use nest_lang::{Seen, Stmt};
use sqlite_items::Items;

impl<P: Port, W: Watch> Run<'_, P, W> {
    /// Runs one statement.
    #[cycle(run)]
    #[tactic(auto, using(crate::proofs::RunLaws::steps))]
    fn statement(&mut self, site: &Site<'_>, statement: &Stmt) -> Result<(), Cut>
        requires { self.old.steps.left + self.old.steps.used ≤ 2 ^ 32 }
        ensures ran { Ran W.may (statement_trace (frame_at site.now (P.expects self.old.port.now)) statement.now) (within P.memory self.old) (within P.memory self.new) (finish_of result self.new.halt) }
        ensures kept { Kept P.expects P.basis self.old self.new }
    {
        if !self.steps.take() {
            return Err(Cut::Limited);
        }
        match statement {
            Stmt::Let(number, value) => {
                let value = self.evaluate(site, value)?;
                put(&mut self.locals, *number, value);
                Ok(())
            }
            Stmt::Set(number, value) => {
                let value = self.evaluate(site, value)?;
                put(self.scalars, *number, value);
                Ok(())
            }
            Stmt::Store(access, address, value) => {
                let address = self.evaluate(site, address)?;
                let value = self.evaluate(site, value)?;
                self.store(site, *access, address, value)?;
                Ok(())
            }
            Stmt::If(condition, first, second) => {
                let value = self.evaluate(site, condition)?;
                self.statements(site, chosen(value, first, second))
            }
        }
    }

    /// Runs statements, one after another.
    #[cycle(run)]
    #[tactic(auto, using(crate::proofs::RunLaws::joins))]
    fn statements(&mut self, site: &Site<'_>, statements: &[Stmt]) -> Result<(), Cut>
        requires { self.old.steps.left + self.old.steps.used ≤ 2 ^ 32 }
        ensures ran { Ran W.may (block_trace (frame_at site.now (P.expects self.old.port.now)) statements.now) (within P.memory self.old) (within P.memory self.new) (finish_of result self.new.halt) }
        ensures kept { Kept P.expects P.basis self.old self.new }
    {
        for statement in statements {
            self.statement(site, statement)?;
        }
        Ok(())
    }

    /// Runs one instance of a block, where it has statements. It shows the watch `Start` and each scalar,
    /// also where no step is left.
    pub fn block(&mut self, site: &Site<'_>, block: &[Stmt]) -> Result<(), Cut>
        requires steps { self.old.steps.left + self.old.steps.used ≤ 2 ^ 32 }
        requires scalars { length self.old.scalars.now ≤ 256 }
        ensures ran { Ran W.may (instance_trace (frame_at site.now (P.expects self.old.port.now)) block.now) (outside P.memory self.old) (outside P.memory self.new) (finish_of result self.new.halt) }
        ensures kept { Kept P.expects P.basis self.old self.new }
    {
        if block.is_empty() {
            return Ok(());
        }
        self.announce(site);
        self.locals = [0; 16];
        self.statements(site, block)
    }

    /// Stores through the port, where the address is shown before.
    #[tactic(auto, using(crate::proofs::QuietLaws::quiet))]
    #[inline(always)]
    pub(crate) fn store(
        &mut self,
        site: &Site<'_>,
        access: u8,
        address: i64,
        value: i64,
    ) -> Result<(), Halted>
        ensures value { let answer = or_stopped access (look_store (P.expects self.old.port.now) (P.memory self.old.port.now) access address) in
            MatchResult result (λ _. IsOk answer) (λ _. answer ≡ Err (halt_by self.new.halt)) }
        ensures watch { W.may self.old.watch.now (observed site.now.block site.now.counters.now (Address access) address) self.new.watch.now }
        ensures ok { OnOk result (P.memory self.new.port.now ≡ slice_set (P.memory self.old.port.now) (unsigned_abs address) value) }
        ensures err { OnErr result (P.memory self.new.port.now ≡ P.memory self.old.port.now) }
        ensures stored { Stored P.expects P.basis self.old self.new }
    {
        self.show(site, Seen::Address(access), address);
        match self.port.store(access, address, value) {
            Ok(()) => Ok(()),
            Err(stop) => {
                self.halt = halt_of(access, stop);
                Err(Halted)
            }
        }
    }
}

/// The branch of an `if`: the first where its value is not 0, and else the second.
fn chosen<'a>(value: i64, first: &'a Items<Stmt>, second: &'a Items<Stmt>) -> &'a [Stmt]
    ensures { result.now ≡ (if same value (pos 0) then second.now else first.now) }
{
    if value == 0 {
        second.as_slice()
    } else {
        first.as_slice()
    }
}

/// Sets one place, if there is one of that number.
#[inline(always)]
pub(crate) fn put(places: &mut [i64], number: u8, value: i64)
    ensures { places.new ≡ slice_set places.old number value }
{
    if (number as usize) < places.len() {
        places[number as usize] = value;
    }
}
