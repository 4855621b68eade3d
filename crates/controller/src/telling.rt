//! The lines of a journey.

ghost use Rattle.std.specs.Prelude.{◌≡◌, ◌<◌, ◌≤◌, length};
ghost use Rattle.nest_lang.specs.Blocks.{present_blocks};
ghost use Rattle.journeys.specs.Tellings as tellings;
ghost use Rattle.controller.specs.Courses.{IsPlacedIn};

use dependence::Side;
use legality::Refusal;
use nest_lang::Nest;
use profile::{Unfit, UnfitWhy};
use report::{At, Line, LineUnfit, Spot, block_of};

/// The line of a datum that has no form.
pub fn unfit_line<const D: usize>(nest: &Nest, unfit: &Unfit<D>) -> Line
    requires few { D < 7 }
    requires loops { length nest.now.loops ≤ 6 }
    requires present { unfit.now.block < length (present_blocks nest.now.loops) }
    requires placed { IsPlacedIn nest.now.loops unfit.now.why }
    ensures { result ≡ tellings.unfit_line nest.now.loops unfit.now }
{
    Line::Unfit {
        block: block_of(nest, unfit.block),
        what: unfit.what,
        why: reason_of(nest, &unfit.why),
    }
}

/// Why a datum has no form.
fn reason_of<const D: usize>(nest: &Nest, why: &UnfitWhy<D>) -> LineUnfit
    requires few { D < 7 }
    requires loops { length nest.now.loops ≤ 6 }
    requires placed { IsPlacedIn nest.now.loops why.now }
    ensures { result ≡ tellings.reason_of nest.now.loops why.now }
{
    match why {
        UnfitWhy::Line { at, line, seen } => LineUnfit::Line {
            at: At::of(nest, at),
            line: *line,
            seen: *seen,
        },
        UnfitWhy::Large(value) => LineUnfit::Large(*value),
    }
}

/// The line of a candidate, by its number from 1, that was refused.
pub fn illegal_line(nest: &Nest, candidate: u32, refusal: Refusal) -> Line
    requires loops { length nest.now.loops ≤ 6 }
    requires first { refusal.first.block < length (present_blocks nest.now.loops) }
    requires second { refusal.second.block < length (present_blocks nest.now.loops) }
    ensures { result ≡ tellings.illegal_line nest.now.loops candidate refusal }
{
    Line::Illegal {
        candidate,
        first: Spot::of(nest, refusal.first),
        second: Spot::of(nest, refusal.second),
        case: refusal.case,
        row: refusal.row,
        above: refusal.side == Side::Above,
        verdict: refusal.verdict,
    }
}
