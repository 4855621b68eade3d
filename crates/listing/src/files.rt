//! The listing of a file.

ghost use Rattle.std.specs.Prelude.{◌≡◌, ◌<◌, ◌≤◌, ◌+◌, ◌++◌, ◌^◌, length, IfOk, OnOk};
ghost use Rattle.std.specs.List.{All};
ghost use Rattle.report.specs.Lines.{CanBeListed};
ghost use Rattle.listing.specs.Listings.{AreNestsLines, IsListing, heading};
ghost use Rattle.listing.specs.Parts.{Adds, IsUnitOf};

use crate::task::Task;
use nest_grammar::{NestUnit, Version};
use nest_lang::{Budget, Ending, State};
use nest_text::NestFile;
use plain_interp::run_nest;
use report::{Line, ListingLine, Options};
use std::alloc::{AllocError, Global};

/// The dependence listing of a file (docs/DEFINITIONS.md, Listings): the lines of its nests, one after another, each from
/// the state and the steps that the plain run of those before it left, and up to the first whose plain run doesn't end. In
/// version 2 the line of its number stands before those of each nest. Each line can be written (`report::listing_text`). The
/// steps are at most 2^32. It is refused only where there is no memory for it.
pub fn listing(
    alloc: Global,
    file: &NestFile,
    options: Options,
) -> Result<Vec<ListingLine>, AllocError>
    requires { options.steps ≤ 2 ^ 32 }
    ensures lines { IfOk result (λ lines. IsListing options file.now lines.items) }
    ensures standing { IfOk result (λ lines. All (CanBeListed (length file.now.scalars)) lines.items) }
{
    let mut lines = Vec::new(alloc);
    let mut state = file.start(alloc)?;
    let steps = Budget {
        left: options.steps,
        used: 0,
    };
    let file = file.file();
    let setting = Setting {
        version: file.version,
        scalars: file.scalars.len() as u8,
        options,
    };
    setting.list(
        alloc,
        &mut lines,
        file.units.as_slice(),
        1,
        &mut state,
        steps,
    )?;
    Ok(lines)
}

/// What is the same for all nests of a file: its version, the number of its scalars, and the options.
#[derive(Clone, Copy)]
struct Setting {
    version: Version,
    scalars: u8,
    options: Options,
}

impl Setting {
    /// Lists nests, the first of which has that number, from a state and with the steps of a budget.
    fn list(
        self,
        alloc: Global,
        lines: &mut Vec<ListingLine>,
        units: &[NestUnit],
        number: u32,
        state: &mut State,
        mut steps: Budget,
    ) -> Result<(), AllocError>
        requires units { All (IsUnitOf self.scalars) units.now }
        requires number { number + length units.now < 2 ^ 32 }
        requires state { length state.old.scalars ≤ 256 }
        requires steps { steps.left + steps.used ≤ 2 ^ 32 }
        ensures { OnOk result (Adds (AreNestsLines self.options self.version self.scalars units.now number state.old steps.left) lines.old.items lines.new.items) }
    {
        let Some((unit, later)) = units.split_first() else {
            return Ok(());
        };
        self.list_heading(lines, number)?;
        let task = Task {
            unit,
            scalars: self.scalars,
            options: self.options,
        };
        let mut profiled = copy_of(state)?;
        task.list(alloc, lines, &mut profiled, steps)?;
        if later.is_empty() {
            return Ok(());
        }
        match run_nest(&unit.nest, state, &mut steps) {
            Ending::Ended => self.list(alloc, lines, later, number + 1, state, steps),
            _ => Ok(()),
        }
    }

    /// Lists the number of a nest, in version 2.
    fn list_heading(self, lines: &mut Vec<ListingLine>, number: u32) -> Result<(), AllocError>
        ensures { OnOk result (lines.new.items ≡ lines.old.items ++ heading self.version number) }
    {
        match self.version {
            Version::One => Ok(()),
            Version::Two => {
                lines.push(ListingLine::Report(Line::Nest(number)))?;
                Ok(())
            }
        }
    }
}

/// A copy of a state.
fn copy_of(state: &State) -> Result<State, AllocError>
    ensures { IfOk result (λ copy. copy ≡ state.now) }
{
    Ok(State {
        memory: state.memory.clone()?,
        scalars: state.scalars.clone()?,
    })
}
