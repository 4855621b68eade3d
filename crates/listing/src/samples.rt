//! The lines of a profile that went through.

ghost use Rattle.std.specs.Prelude.{◌≡◌, ◌<◌, ◌++◌, length, OnOk};
ghost use Rattle.nest_lang.specs.Blocks.{present_blocks};
ghost use Rattle.listing.specs.Listings.{AreFittedLines, reason_of, unfit_line};
ghost use Rattle.listing.specs.Lists.{table_lines};
ghost use Rattle.listing.specs.Parts.{Adds, IsOfNest, IsPlaced, IsUnitOf};

use crate::fitted::Fitted;
use crate::task::Task;
use domain::Prediction;
use nest_lang::Nest;
use profile::{FitEnd, Samples, Unfit, UnfitWhy, fit};
use report::{At, Line, LineUnfit, ListingLine, block_of};
use std::alloc::{AllocError, Global};

impl Task<'_> {
    /// Lists what the samples of a nest's profile fit to: the first datum that has no form; or the forms, the systems that
    /// may be met, and what is answered of each candidate.
    pub fn list_samples<const D: usize>(
        &self,
        alloc: Global,
        lines: &mut Vec<ListingLine>,
        samples: &Samples,
    ) -> Result<(), AllocError>
        requires few { D < 7 }
        requires depth { length self.now.unit.now.nest.loops ≡ D }
        requires unit { IsUnitOf self.now.scalars self.now.unit.now }
        ensures { OnOk result (Adds (AreFittedLines (length self.now.unit.now.nest.loops) self.now.options self.now.scalars self.now.unit.now samples.now) lines.old.items lines.new.items) }
    {
        match fit::<D>(alloc, &self.unit.nest, self.scalars, samples) {
            Ok(pred) => self.list_prediction(alloc, lines, &pred),
            Err(FitEnd::Unfit(unfit)) => {
                lines.push(unfit_line(&self.unit.nest, &unfit))?;
                Ok(())
            }
            Err(FitEnd::NoMemory) => Err(AllocError),
        }
    }

    /// Lists the forms of a prediction, the systems that may be met, and what is answered of each candidate.
    fn list_prediction<const D: usize>(
        &self,
        alloc: Global,
        lines: &mut Vec<ListingLine>,
        pred: &Prediction<D>,
    ) -> Result<(), AllocError>
        requires unit { IsUnitOf self.now.scalars self.now.unit.now }
        requires of { IsOfNest D self.now.unit.now.nest.loops pred.now }
        ensures { OnOk result (lines.new.items ≡ lines.old.items ++ table_lines self.now.scalars self.now.unit.now.nest.loops self.now.options.chunk self.now.unit.now.scripts pred.now) }
    {
        let fitted = Fitted {
            nest: &self.unit.nest,
            pred,
            length: self.options.chunk,
        };
        fitted.list_forms(lines, self.scalars)?;
        fitted.list_dependences(alloc, lines)?;
        fitted.list_candidates(alloc, lines, self.unit.scripts.as_slice())
    }
}

/// The line of a datum that has no form.
fn unfit_line<const D: usize>(nest: &Nest, unfit: &Unfit<D>) -> ListingLine
    requires few { D < 7 }
    requires loops { length nest.now.loops < 7 }
    requires block { unfit.now.block < length (present_blocks nest.now.loops) }
    requires place { IsPlaced (length (present_blocks nest.now.loops)) unfit.now.why }
    ensures { result ≡ unfit_line nest.now.loops unfit.now }
{
    ListingLine::Report(Line::Unfit {
        block: block_of(nest, unfit.block),
        what: unfit.what,
        why: reason_of(nest, &unfit.why),
    })
}

/// Why a datum has no form, as its line says it.
fn reason_of<const D: usize>(nest: &Nest, why: &UnfitWhy<D>) -> LineUnfit
    requires few { D < 7 }
    requires loops { length nest.now.loops < 7 }
    requires place { IsPlaced (length (present_blocks nest.now.loops)) why.now }
    ensures { result ≡ reason_of nest.now.loops why.now }
{
    match why {
        UnfitWhy::Line { at, line, seen } => LineUnfit::Line {
            at: At::of(nest, at),
            line: *line,
            seen: *seen,
        },
        UnfitWhy::Large(value) => LineUnfit::Large(*value),
    }
}
