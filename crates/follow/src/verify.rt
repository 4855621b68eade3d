//! A port that verifies addresses, over any port that does not.

ghost use Rattle.std.specs.Prelude.{◌≡◌, true, false, Some, None, if◌then◌else◌};
ghost use Rattle.std.specs.Borrow.{GName};
ghost use Rattle.nest_lang.specs.Lookups.{Expectation, lies_in, line_of, look};
ghost use Rattle.block_exec.specs.Ports.{without_word, memory_after};
ghost use Rattle.follow.specs.Intervals.{interval_by, verified_by};

use crate::expected::Expected;
use block_exec::{Port, Stop};

/// The addresses from line + low to line + high.
#[derive(Clone, Copy, Debug, PartialEq, Eq)]
pub struct Interval {
    pub line: i128,
    pub low: i64,
    pub high: i64,
}

/// The memory of a port that verifies nothing, with what is expected of one instance. An address is compared before that
/// port is asked, so no address that isn't expected reaches it.
#[derive(Drop)]
pub struct VerifyingPort<'p, 'e, P: Port, E: Expected> {
    port: &'p mut P,
    expected: &'e E,
    ghost plain: { (P.expects port.now).verifies ≡ false },
}

impl<'p, 'e, P: Port, E: Expected> VerifyingPort<'p, 'e, P, E> {
    /// The port over this one, which verifies nothing, with what is expected.
    pub fn new(port: &'p mut P, expected: &'e E) -> VerifyingPort<'p, 'e, P, E>
        requires { (P.expects port.now).verifies ≡ false }
        ensures port { result.port ≡ port.entry }
        ensures expected { result.expected.now ≡ expected.now }
    {
        VerifyingPort { port, expected }
    }

    /// The word at an address, from the port below where that address is expected. Else that port is left as it is.
    #[tactic(auto, using(crate::proofs::VerifyLaws::verifying))]
    fn load_expected(&mut self, access: u8, address: i64) -> Result<i64, Stop>
        ensures answer { result ≡ look true (E.intervals self.old.expected.now access) (P.memory self.old.port.now) address }
        ensures unasked { lies_in (E.intervals self.old.expected.now access) address ≡ false → self.new.port.now ≡ self.old.port.now }
        ensures memory { P.memory self.new.port.now ≡ P.memory self.old.port.now }
        ensures expected { self.new.expected ≡ self.old.expected }
        ensures below { P.expects self.new.port.now ≡ P.expects self.old.port.now }
        ensures basis { P.basis self.new.port.now ≡ P.basis self.old.port.now }
        ensures place { self.new.port.ghost_name ≡ self.old.port.ghost_name }
    {
        // Compared first, so that a refused load leaves the port below as it is.
        if let Some(expected) = refused(self.expected, access, address) {
            return Err(Stop::Unexpected {
                seen: address,
                expected,
            });
        }
        self.port.load(access, address)
    }

    /// Sets the word at an address through the port below where that address is expected. Else that port is left as it is.
    #[tactic(auto, using(crate::proofs::VerifyLaws::verifying))]
    fn store_expected(&mut self, access: u8, address: i64, value: i64) -> Result<(), Stop>
        ensures answer { result ≡ without_word (look true (E.intervals self.old.expected.now access) (P.memory self.old.port.now) address) }
        ensures unasked { lies_in (E.intervals self.old.expected.now access) address ≡ false → self.new.port.now ≡ self.old.port.now }
        ensures memory { P.memory self.new.port.now ≡ memory_after result (P.memory self.old.port.now) address value }
        ensures expected { self.new.expected ≡ self.old.expected }
        ensures below { P.expects self.new.port.now ≡ P.expects self.old.port.now }
        ensures basis { P.basis self.new.port.now ≡ P.basis self.old.port.now }
        ensures place { self.new.port.ghost_name ≡ self.old.port.ghost_name }
    {
        // Compared first, so that a refused store leaves the port below as it is.
        if let Some(expected) = refused(self.expected, access, address) {
            return Err(Stop::Unexpected {
                seen: address,
                expected,
            });
        }
        self.port.store(access, address, value)
    }
}

impl<P: Port, E: Expected> Port for VerifyingPort<'_, '_, P, E> {
    ghost Basis = { P.Basis × Expectation × GName };

    ghost memory = { λ p. P.memory p.port.now };

    ghost expects = { λ p. verified_by (E.intervals p.expected.now) };

    ghost basis = { λ p. (P.basis p.port.now, P.expects p.port.now, p.port.ghost_name) };

    fn load(&mut self, access: u8, address: i64) -> Result<i64, Stop> {
        self.load_expected(access, address)
    }

    fn store(&mut self, access: u8, address: i64, value: i64) -> Result<(), Stop> {
        self.store_expected(access, address, value)
    }
}

impl Interval {
    /// Whether the address lies in the interval. Its distance from the line is compared, since an end of the interval may be
    /// no i128; where the distance is none, it is farther than an end is.
    pub fn has(self, address: i64) -> bool
        ensures { result ≡ lies_in (interval_by (Some self)) address }
    {
        match i128::from(address).checked_sub(self.line) {
            Some(distance) => i128::from(self.low) <= distance && distance <= i128::from(self.high),
            None => false,
        }
    }
}

/// The line of what is expected of that access, or that nothing is, where the address isn't expected.
fn refused<E: Expected>(expected: &E, access: u8, address: i64) -> Option<Option<i128>>
    ensures { result ≡ (if lies_in (E.intervals expected.now access) address then None else Some (line_of (E.intervals expected.now access))) }
{
    match expected.interval(access) {
        Some(interval) if interval.has(address) => None,
        Some(interval) => Some(Some(interval.line)),
        None => Some(None),
    }
}
