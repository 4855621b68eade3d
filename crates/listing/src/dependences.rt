//! The lines of dependences.

ghost use Rattle.std.specs.Prelude.{◌≡◌, ◌<◌, ◌++◌, length, map, OnOk};
ghost use Rattle.nest_lang.specs.Blocks.{present_blocks};
ghost use Rattle.legality.specs.Dependences.{dependences};
ghost use Rattle.listing.specs.Lists.{depends_line};
ghost use Rattle.listing.specs.Parts.{IsOfNest};

use crate::fitted::Fitted;
use legality::{Dependence, dependences};
use nest_lang::Nest;
use report::{ListingLine, Spot};
use std::alloc::{AllocError, Global};

impl<const D: usize> Fitted<'_, D> {
    /// Lists the systems that may be met.
    pub fn list_dependences(
        &self,
        alloc: Global,
        lines: &mut Vec<ListingLine>,
    ) -> Result<(), AllocError>
        requires { IsOfNest D self.now.nest.now.loops self.now.pred.now }
        ensures { OnOk result (lines.new.items ≡ lines.old.items ++ map (depends_line self.now.nest.now.loops) (dependences self.now.pred.now self.now.length)) }
    {
        let found = dependences(alloc, self.pred, self.length)?;
        for dependence in &found {
            lines.push(depends_line(self.nest, *dependence))?;
        }
        Ok(())
    }
}

/// The line of a system that may be met.
fn depends_line(nest: &Nest, dependence: Dependence) -> ListingLine
    requires loops { length nest.now.loops < 7 }
    requires first { dependence.first.block < length (present_blocks nest.now.loops) }
    requires second { dependence.second.block < length (present_blocks nest.now.loops) }
    ensures { result ≡ depends_line nest.now.loops dependence }
{
    ListingLine::Depends {
        first: Spot::of(nest, dependence.first),
        second: Spot::of(nest, dependence.second),
        case: dependence.case,
        verdict: dependence.verdict,
    }
}
