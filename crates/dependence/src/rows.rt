//! The rows of a system, added one constraint after another.

ghost use Rattle.std.specs.Prelude.{◌≡◌, ◌<◌, ◌≤◌, ◌+◌, ◌-◌, ◌^◌, ℤ, pos, [], ◌∷◌, ◌++◌, map, length, OnOk};
ghost use Rattle.std.specs.List.{All};
ghost use Rattle.fourier_motzkin.specs.RowSets.{IsWithin};
ghost use Rattle.domain.specs.Tables.{IsBlock, IsTable};
ghost use Rattle.dependence.specs.Comparisons.{at_most, row_for};
ghost use Rattle.dependence.specs.Systems.{equal, equal_places, first_counter, inner_counters, meeting, rising_place};
ghost use Rattle.dependence.specs.Terms.{IsNarrow, at_member, term_of};

use crate::comparison::{Sum, Term, row_for};
use crate::places::{counters, form_or_zero, greatest_sum, place_sum};
use affine::Row;
use domain::{AccessForm, BlockForms, Prediction};
use std::alloc::{AllocError, Global};

/// One of the two instances that a system speaks of.
#[derive(Clone, Copy, Debug, PartialEq, Eq)]
pub enum Member {
    X,
    Y,
}

impl Member {
    /// A form at that instance.
    fn at<const D: usize>(self, sum: Sum<D>) -> Term<D>
        ensures { term_of result ≡ at_member self sum.entry }
    {
        match self {
            Member::X => Term::AtX(sum),
            Member::Y => Term::AtY(sum),
        }
    }
}

/// The numbers of counters of x and of y, over which a system's rows are, beside the chunk's first turn.
#[derive(Clone, Copy, Debug, PartialEq, Eq)]
pub struct Over {
    pub x: usize,
    pub y: usize,
}

/// Rows with numbers of at most 2^100 in size.
#[derive(Drop)]
pub struct RowList {
    pub rows: Vec<Row>,
    ghost within: { All (IsWithin (2 ^ 100)) rows.items },
}

impl RowList {
    /// Adds that left is at most right.
    pub fn at_most<const D: usize>(
        &mut self,
        over: Over,
        left: &Term<D>,
        right: &Term<D>,
    ) -> Result<(), AllocError>
        requires few { D < 7 }
        requires x { over.x ≤ D }
        requires y { over.y ≤ D }
        requires left { IsNarrow (term_of left.now) }
        requires right { IsNarrow (term_of right.now) }
        ensures { OnOk result (self.new.rows.items ≡ self.old.rows.items ++ row_for over.x over.y (at_most (term_of left.now) (term_of right.now)) ∷ []) }
    {
        self.rows.push(row_for(over.x, over.y, left, right))?;
        Ok(())
    }

    /// Adds that both are equal.
    pub fn equal<const D: usize>(
        &mut self,
        over: Over,
        left: &Term<D>,
        right: &Term<D>,
    ) -> Result<(), AllocError>
        requires few { D < 7 }
        requires x { over.x ≤ D }
        requires y { over.y ≤ D }
        requires left { IsNarrow (term_of left.now) }
        requires right { IsNarrow (term_of right.now) }
        ensures { OnOk result (self.new.rows.items ≡ self.old.rows.items ++ map (row_for over.x over.y) (equal (term_of left.now) (term_of right.now))) }
    {
        self.at_most(over, left, right)?;
        self.at_most(over, right, left)
    }

    /// Adds that the first counter is one of so many turns from the chunk's first one on.
    pub fn first_counter<const D: usize>(
        &mut self,
        pred: &Prediction<D>,
        over: Over,
        member: Member,
        length: i64,
    ) -> Result<(), AllocError>
        requires table { IsTable D pred.now }
        requires x { over.x ≤ D }
        requires y { over.y ≤ D }
        ensures { OnOk result (self.new.rows.items ≡ self.old.rows.items ++ map (row_for over.x over.y) (first_counter pred.now length (at_member member))) }
    {
        let _pred = pred;
        let counter = member.at(Sum::<D>::counter(0));
        self.at_most(over, &Term::Turn(0), &counter)?;
        self.at_most(over, &counter, &Term::Turn(i128::from(length) - 1))
    }

    /// Adds that each inner counter of a block's instance lies within its trip.
    pub fn inner_counters<const D: usize>(
        &mut self,
        pred: &Prediction<D>,
        over: Over,
        member: Member,
        block: &BlockForms<D>,
    ) -> Result<(), AllocError>
        requires table { IsTable D pred.now }
        requires x { over.x ≤ D }
        requires y { over.y ≤ D }
        requires block { IsBlock D block.now }
        ensures { OnOk result (self.new.rows.items ≡ self.old.rows.items ++ map (row_for over.x over.y) (inner_counters pred.now block.now (at_member member))) }
    {
        for place in 1..counters(pred, block) {
            let counter = member.at(Sum::<D>::counter(place));
            let greatest = member.at(greatest_sum(pred, block, place));
            self.at_most(over, &Term::Number(0), &counter)?;
            self.at_most(over, &counter, &greatest)?;
        }
        Ok(())
    }

    /// Adds that the intervals of two accesses meet.
    pub fn meeting<const D: usize>(
        &mut self,
        over: Over,
        a: &AccessForm<D>,
        b: &AccessForm<D>,
    ) -> Result<(), AllocError>
        requires few { D < 7 }
        requires x { over.x ≤ D }
        requires y { over.y ≤ D }
        ensures { OnOk result (self.new.rows.items ≡ self.old.rows.items ++ map (row_for over.x over.y) (meeting D a.now b.now)) }
    {
        let x = form_or_zero(&a.line);
        let y = form_or_zero(&b.line);
        self.at_most(
            over,
            &Term::AtX(x.shifted(a.low)),
            &Term::AtY(y.shifted(b.high)),
        )?;
        self.at_most(
            over,
            &Term::AtY(y.shifted(b.low)),
            &Term::AtX(x.shifted(a.high)),
        )
    }

    /// Adds that the first places of the padded points of x and of y are equal.
    pub fn equal_places<const D: usize>(
        &mut self,
        pred: &Prediction<D>,
        over: Over,
        a: &BlockForms<D>,
        b: &BlockForms<D>,
        places: usize,
    ) -> Result<(), AllocError>
        requires table { IsTable D pred.now }
        requires x { over.x ≤ D }
        requires y { over.y ≤ D }
        requires a { IsBlock D a.now }
        requires b { IsBlock D b.now }
        requires places { places ≤ D }
        ensures { OnOk result (self.new.rows.items ≡ self.old.rows.items ++ map (row_for over.x over.y) (equal_places pred.now a.now b.now places)) }
    {
        for place in 0..places {
            self.equal(
                over,
                &Term::AtX(place_sum(pred, a, place)),
                &Term::AtY(place_sum(pred, b, place)),
            )?;
        }
        Ok(())
    }

    /// Adds that x is less than y at a place of the padded points; nothing after the last place.
    pub fn rising_place<const D: usize>(
        &mut self,
        pred: &Prediction<D>,
        over: Over,
        a: &BlockForms<D>,
        b: &BlockForms<D>,
        place: usize,
    ) -> Result<(), AllocError>
        requires table { IsTable D pred.now }
        requires x { over.x ≤ D }
        requires y { over.y ≤ D }
        requires a { IsBlock D a.now }
        requires b { IsBlock D b.now }
        ensures { OnOk result (self.new.rows.items ≡ self.old.rows.items ++ map (row_for over.x over.y) (rising_place pred.now a.now b.now place)) }
    {
        if place >= D {
            return Ok(());
        }
        self.at_most(
            over,
            &Term::AtX(place_sum(pred, a, place).shifted(1)),
            &Term::AtY(place_sum(pred, b, place)),
        )
    }
}
