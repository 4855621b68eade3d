//! What a prediction knows of a loop, of a block and of an access.

ghost use Rattle.std.specs.Prelude.{◌≡◌, ◌<◌, length};
ghost use Rattle.std.specs.Option.{option_copied};
ghost use Rattle.domain.specs.Tables.{is_block, scalar_at, access_at, line_of, tube_by};

use affine::Form;
use nest_lang::Part;
use std::marker::Model;

/// A `for` with its stride, or a `while`.
#[derive(Clone, Copy, Debug, PartialEq, Eq)]
pub enum LoopKind {
    For(i64),
    While,
}

/// A loop: its kind, and the forms of its lower bound and of its trip, where the head of the loop was seen.
#[derive(Debug, Drop)]
pub struct LoopForms<const D: usize> {
    pub kind: LoopKind,
    pub lower: Option<Form<D>>,
    pub trip: Option<Form<D>>,
}

impl<const D: usize> Model for LoopForms<D> {
    ghost use Rattle.domain.specs.Tables.{Level};

    ghost Value = { Level };

    ghost view = { λ l. record { kind = l.kind; lower = l.lower; trip = l.trip } };
}

/// An access: whether it stores, and where it was made the form of its address, with the tube about it.
#[derive(Debug, Drop)]
pub struct AccessForm<const D: usize> {
    pub stores: bool,
    pub line: Option<Form<D>>,
    pub low: i64,
    pub high: i64,
}

impl<const D: usize> Model for AccessForm<D> {
    ghost use Rattle.domain.specs.Tables.{Access, IsTube};

    ghost Value = { Access };

    ghost view = { λ a. record { stores = a.stores; line = a.line; low = a.low; high = a.high } };

    ghost invariant = { λ a. IsTube a.low a.high };
}

/// A block: its part and its level, the forms of the scalars as it begins, and its accesses.
#[derive(Drop)]
pub struct BlockForms<const D: usize> {
    pub part: Part,
    pub level: u8,
    pub scalars: Vec<Option<Form<D>>>,
    pub accesses: Vec<AccessForm<D>>,
}

impl<const D: usize> Model for BlockForms<D> {
    ghost use Rattle.domain.specs.Tables.{Block};

    ghost Value = { Block };

    ghost view = { λ b. record { part = b.part; level = b.level; scalars = b.scalars.items; accesses = b.accesses.items } };
}

impl<const D: usize> BlockForms<D> {
    /// Whether it is the block of that part and level.
    pub fn is(&self, part: Part, level: usize) -> bool
        ensures { result ≡ is_block part level self.now }
    {
        self.part == part && self.level as usize == level
    }

    /// The form of a scalar, from 0.
    pub fn scalar(&self, number: u8) -> Option<Form<D>>
        ensures { result ≡ scalar_at self.now number }
    {
        match self.scalars.get(number as usize) {
            Some(form) => *form,
            None => None,
        }
    }

    /// The access of that number, from 1.
    pub fn access(&self, number: u8) -> Option<&AccessForm<D>>
        requires { D < 7 }
        ensures { option_copied result ≡ access_at self.now number }
    {
        let place = number.checked_sub(1)?;
        self.accesses.get(place as usize)
    }

    /// The form of the address of that access.
    pub fn line(&self, number: u8) -> Option<Form<D>>
        requires { D < 7 }
        ensures { result ≡ line_of (access_at self.now number) }
    {
        self.access(number)?.line
    }

    /// The tube of that access, where it has a form.
    pub fn tube(&self, number: u8) -> Option<(i64, i64)>
        requires { D < 7 }
        ensures { result ≡ tube_by (access_at self.now number) (line_of (access_at self.now number)) }
    {
        let access = self.access(number)?;
        access.line?;
        Some((access.low, access.high))
    }
}
