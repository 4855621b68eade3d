//! The lines of one nest.

ghost use Rattle.std.specs.Prelude.{◌≡◌, ◌≤◌, ◌+◌, ◌^◌, length, OnOk};
ghost use Rattle.listing.specs.Listings.{AreFittedLines, AreNestLines, profile_line};
ghost use Rattle.listing.specs.Parts.{Adds, IsUnitOf};

use crate::task::Task;
use nest_lang::{Budget, State};
use profile::{FirstProfile, Samples, first_profile};
use report::{Line, ListingLine};
use std::alloc::{AllocError, Global};

impl Task<'_> {
    /// Lists a nest from a state, with the steps of a budget. The state is then the one after its first profile.
    pub fn list(
        &self,
        alloc: Global,
        lines: &mut Vec<ListingLine>,
        state: &mut State,
        steps: Budget,
    ) -> Result<(), AllocError>
        requires unit { IsUnitOf self.now.scalars self.now.unit.now }
        requires state { length state.old.scalars ≤ 256 }
        requires steps { steps.left + steps.used ≤ 2 ^ 32 }
        ensures { OnOk result (Adds (AreNestLines self.now.options self.now.scalars self.now.unit.now state.old steps.left) lines.old.items lines.new.items) }
    {
        let turns = self.options.sample;
        match first_profile(alloc, &self.unit.nest, state, steps, turns.unsigned_abs())? {
            FirstProfile::Missing => lines.push(ListingLine::NothingToFit)?,
            FirstProfile::Short(done) => {
                lines.push(profile_line(done))?;
                lines.push(ListingLine::NothingToFit)?;
            }
            FirstProfile::Whole(samples) => {
                lines.push(profile_line(turns))?;
                self.list_whole(alloc, lines, &samples)?;
            }
        }
        Ok(())
    }

    /// Lists what the samples of a nest of one to six loops fit to.
    fn list_whole(
        &self,
        alloc: Global,
        lines: &mut Vec<ListingLine>,
        samples: &Samples,
    ) -> Result<(), AllocError>
        requires { IsUnitOf self.now.scalars self.now.unit.now }
        ensures { OnOk result (Adds (AreFittedLines (length self.now.unit.now.nest.loops) self.now.options self.now.scalars self.now.unit.now samples.now) lines.old.items lines.new.items) }
    {
        match self.unit.nest.depth() {
            1 => self.list_samples::<1>(alloc, lines, samples),
            2 => self.list_samples::<2>(alloc, lines, samples),
            3 => self.list_samples::<3>(alloc, lines, samples),
            4 => self.list_samples::<4>(alloc, lines, samples),
            5 => self.list_samples::<5>(alloc, lines, samples),
            6 => self.list_samples::<6>(alloc, lines, samples),
            _ => unreachable!(),
        }
    }
}

/// The line of a first profile.
fn profile_line(turns: i64) -> ListingLine
    ensures { result ≡ profile_line turns }
{
    ListingLine::Report(Line::Profile { first: 0, turns })
}
