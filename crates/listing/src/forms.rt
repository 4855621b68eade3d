//! The lines of forms.

ghost use Rattle.std.specs.Prelude.{◌≡◌, ◌<◌, ◌≤◌, ◌++◌, ◌∷◌, [], length, map, flat_map, OnOk};
ghost use Rattle.std.specs.List.{range_with_len};
ghost use Rattle.nest_lang.specs.Accesses.{accesses_of};
ghost use Rattle.nest_lang.specs.Rules.{NestKeeps};
ghost use Rattle.domain.specs.declared.prediction.What.TheVariants.{Scalar, Address};
ghost use Rattle.domain.specs.Tables.{block_at};
ghost use Rattle.profile.specs.Data.{bounds_of, data_of, tube_in};
ghost use Rattle.listing.specs.Lists.{form_if_any, form_line, forms, forms_of};
ghost use Rattle.listing.specs.Parts.{IsOfNest};

use crate::fitted::Fitted;
use affine::Form;
use arrayvec::ArrayVec;
use domain::{Prediction, What};
use line_fit::Tube;
use nest_lang::{BlockRef, Nest, Part};
use report::ListingLine;
use std::alloc::AllocError;

impl<const D: usize> Fitted<'_, D> {
    /// Lists the forms of the nest's data: the present blocks in the order of the text, and in each the scalars, the
    /// accesses, the lower bound and the trip.
    pub fn list_forms(&self, lines: &mut Vec<ListingLine>, scalars: u8) -> Result<(), AllocError>
        requires of { IsOfNest D self.now.nest.now.loops self.now.pred.now }
        requires keeps { NestKeeps scalars self.now.nest.now.loops }
        ensures { OnOk result (lines.new.items ≡ lines.old.items ++ forms scalars self.now.nest.now.loops self.now.pred.now) }
    {
        for (rank, block) in self.nest.blocks().as_slice().iter().enumerate() {
            let site = Site {
                rank: rank as u8,
                block: *block,
            };
            site.list(lines, self.nest, scalars, self.pred)?;
        }
        Ok(())
    }
}

/// A present block, with its rank.
#[derive(Clone, Copy)]
struct Site {
    rank: u8,
    block: BlockRef,
}

impl Site {
    /// Lists the forms of the block's data.
    fn list<const D: usize>(
        self,
        lines: &mut Vec<ListingLine>,
        nest: &Nest,
        scalars: u8,
        pred: &Prediction<D>,
    ) -> Result<(), AllocError>
        requires few { D < 7 }
        requires accesses { length (accesses_of nest.now.loops self.block) ≤ 64 }
        ensures { OnOk result (lines.new.items ≡ lines.old.items ++ forms_of pred.now self.rank self.block (data_of scalars nest.now.loops self.block)) }
    {
        let accesses = nest.accesses(self.block);
        self.list_scalars(lines, scalars, pred)?;
        self.list_addresses(lines, accesses.len() as u8, pred)?;
        self.list_bounds(lines, pred)
    }

    /// Lists the forms of the scalars.
    fn list_scalars<const D: usize>(
        self,
        lines: &mut Vec<ListingLine>,
        count: u8,
        pred: &Prediction<D>,
    ) -> Result<(), AllocError>
        requires { D < 7 }
        ensures { OnOk result (lines.new.items ≡ lines.old.items ++ forms_of pred.now self.rank self.block (map (λ n. Scalar n) (range_with_len 0 count))) }
    {
        for number in 0..count {
            self.list_datum(lines, pred, What::Scalar(number))?;
        }
        Ok(())
    }

    /// Lists the forms of the addresses of the accesses, which are numbered from 1.
    fn list_addresses<const D: usize>(
        self,
        lines: &mut Vec<ListingLine>,
        count: u8,
        pred: &Prediction<D>,
    ) -> Result<(), AllocError>
        requires few { D < 7 }
        requires count { count ≤ 64 }
        ensures { OnOk result (lines.new.items ≡ lines.old.items ++ forms_of pred.now self.rank self.block (map (λ n. Address n) (range_with_len 1 count))) }
    {
        for before in 0..count {
            self.list_datum(lines, pred, What::Address(before + 1))?;
        }
        Ok(())
    }

    /// Lists the forms of the bounds of the loop of which the block is the head, where that is an inner loop.
    fn list_bounds<const D: usize>(
        self,
        lines: &mut Vec<ListingLine>,
        pred: &Prediction<D>,
    ) -> Result<(), AllocError>
        requires { D < 7 }
        ensures { OnOk result (lines.new.items ≡ lines.old.items ++ forms_of pred.now self.rank self.block (bounds_of self.block.part self.block.level)) }
    {
        if self.block.part != Part::Head || self.block.level < 2 {
            return Ok(());
        }
        self.list_datum(lines, pred, What::Lower)?;
        self.list_datum(lines, pred, What::Trip)
    }

    /// Lists the form of a datum, where it has one.
    fn list_datum<const D: usize>(
        self,
        lines: &mut Vec<ListingLine>,
        pred: &Prediction<D>,
        what: What,
    ) -> Result<(), AllocError>
        requires { D < 7 }
        ensures { OnOk result (lines.new.items ≡ lines.old.items ++ form_if_any self.block what (tube_in pred.now (block_at pred.now self.rank) what)) }
    {
        if let Some(tube) = tube_in(pred, self.rank, what) {
            lines.push(form_line(self.block, what, &tube))?;
        }
        Ok(())
    }
}

/// The form of a datum of the block of a rank, with the tube about it, which is (0, 0) for all but addresses; None where
/// the datum has none.
fn tube_in<const D: usize>(pred: &Prediction<D>, rank: u8, what: What) -> Option<Tube<D>>
    requires { D < 7 }
    ensures { result ≡ tube_in pred.now (block_at pred.now rank) what }
{
    let line = pred.form(rank, what)?;
    match what {
        What::Address(access) => {
            let (low, high) = pred.tube(rank, access)?;
            Some(Tube { line, low, high })
        }
        _ => Some(Tube {
            line,
            low: 0,
            high: 0,
        }),
    }
}

/// The line of a form, with the tube about it.
fn form_line<const D: usize>(block: BlockRef, what: What, tube: &Tube<D>) -> ListingLine
    requires { D < 7 }
    ensures { result ≡ form_line block what tube.now }
{
    ListingLine::Form {
        block,
        what,
        coefficients: coefficients(&tube.line),
        constant: tube.line.cst,
        low: tube.low,
        high: tube.high,
    }
}

/// The coefficients of a form.
fn coefficients<const D: usize>(form: &Form<D>) -> ArrayVec<i64, 6>
    requires { D < 7 }
    ensures { result.items ≡ form.now.coef }
{
    let mut found = ArrayVec::new();
    for place in 0..D {
        found.push(form.coef[place]);
    }
    found
}
