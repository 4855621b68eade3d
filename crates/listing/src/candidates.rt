//! The lines of candidates.

ghost use Rattle.std.specs.Prelude.{◌≡◌, ◌<◌, ◌≤◌, ◌++◌, length, OnOk};
ghost use Rattle.nest_lang.specs.Blocks.{present_blocks};
ghost use Rattle.transform.specs.Standards.{standard_scripts};
ghost use Rattle.listing.specs.Lists.{illegal_line, judged_if_any, judgements, judgements_of};
ghost use Rattle.listing.specs.Parts.{IsOfNest};

use crate::fitted::Fitted;
use dependence::Side;
use legality::{Judged, Refusal, judge};
use nest_lang::{Command, Nest};
use report::{Line, ListingLine, Spot};
use sqlite_items::Items;
use std::alloc::{AllocError, Global};
use transform::{Schedule, schedule_of, standard};

/// The most standard candidates that a nest has.
const MOST_STANDARD: u8 = 5;

impl<const D: usize> Fitted<'_, D> {
    /// Lists what is answered of each candidate: of those that the file has for the nest or, where it has none, of the
    /// standard ones.
    pub fn list_candidates(
        &self,
        alloc: Global,
        lines: &mut Vec<ListingLine>,
        scripts: &[Items<Command>],
    ) -> Result<(), AllocError>
        requires of { IsOfNest D self.now.nest.now.loops self.now.pred.now }
        requires scripts { length scripts.now ≤ 16 }
        ensures { OnOk result (lines.new.items ≡ lines.old.items ++ judgements self.now.nest.now.loops self.now.pred.now self.now.length scripts.now) }
    {
        if scripts.is_empty() {
            self.list_standard(alloc, lines)
        } else {
            self.list_own(alloc, lines, scripts)
        }
    }

    /// Lists what is answered of each standard candidate.
    fn list_standard(&self, alloc: Global, lines: &mut Vec<ListingLine>) -> Result<(), AllocError>
        requires of { IsOfNest D self.now.nest.now.loops self.now.pred.now }
        ensures { OnOk result (lines.new.items ≡ lines.old.items ++ judgements_of self.now.nest.now.loops self.now.pred.now self.now.length (standard_scripts D)) }
    {
        for place in 0..MOST_STANDARD {
            let schedule = standard(place + 1);
            self.list_judgement(alloc, lines, u32::from(place) + 1, schedule)?;
        }
        Ok(())
    }

    /// Lists what is answered of each candidate of the file.
    fn list_own(
        &self,
        alloc: Global,
        lines: &mut Vec<ListingLine>,
        scripts: &[Items<Command>],
    ) -> Result<(), AllocError>
        requires of { IsOfNest D self.now.nest.now.loops self.now.pred.now }
        requires scripts { length scripts.now ≤ 16 }
        ensures { OnOk result (lines.new.items ≡ lines.old.items ++ judgements_of self.now.nest.now.loops self.now.pred.now self.now.length scripts.now) }
    {
        for (place, script) in scripts.iter().enumerate() {
            let schedule = schedule_of(script.as_slice());
            self.list_judgement(alloc, lines, place as u32 + 1, schedule)?;
        }
        Ok(())
    }

    /// Lists what is answered of the candidate of a number, where it has a schedule.
    fn list_judgement(
        &self,
        alloc: Global,
        lines: &mut Vec<ListingLine>,
        number: u32,
        schedule: Option<Schedule<D>>,
    ) -> Result<(), AllocError>
        requires { IsOfNest D self.now.nest.now.loops self.now.pred.now }
        ensures { OnOk result (lines.new.items ≡ lines.old.items ++ judged_if_any self.now.nest.now.loops self.now.pred.now self.now.length number schedule.entry) }
    {
        let Some(schedule) = schedule else {
            return Ok(());
        };
        let line = match judge(alloc, self.pred, &schedule, self.length)? {
            Judged::Legal => ListingLine::Legal(number),
            Judged::Refused(refusal) => ListingLine::Report(illegal(self.nest, number, refusal)),
        };
        lines.push(line)?;
        Ok(())
    }
}

/// The line of a candidate that is refused.
fn illegal(nest: &Nest, candidate: u32, refusal: Refusal) -> Line
    requires loops { length nest.now.loops < 7 }
    requires first { refusal.first.block < length (present_blocks nest.now.loops) }
    requires second { refusal.second.block < length (present_blocks nest.now.loops) }
    ensures { result ≡ illegal_line nest.now.loops candidate refusal }
{
    Line::Illegal {
        candidate,
        first: Spot::of(nest, refusal.first),
        second: Spot::of(nest, refusal.second),
        case: refusal.case,
        row: refusal.row,
        above: refusal.side == Side::Above,
        verdict: refusal.verdict,
    }
}
