//! The fit of a whole nest.

ghost use Rattle.std.specs.Prelude.{◌≡◌, ◌<◌, ◌≤◌, ◌^◌, length, IfOk, MatchResult};
ghost use Rattle.std.specs.Option.{option_copied};
ghost use Rattle.nest_lang.specs.Blocks.{present_blocks};
ghost use Rattle.nest_lang.specs.Rules.{NestKeeps};
ghost use Rattle.domain.specs.Tables.{stride_size};
ghost use Rattle.domain.specs.Shapes.{kind_of};
ghost use Rattle.profile.specs.Fits.{IsFitEnd, IsFitOf};
ghost use Rattle.profile.specs.Parts.{AreBlockFits, AreLevels, StayWithinReach, level_with, own_bounds};

use crate::bounds::Bounds;
use crate::reach::is_within_reach;
use crate::sampler::Samples;
use crate::site::{BlockFit, Site};
use crate::unfit::FitEnd;
use domain::{BlockForms, LoopForms, LoopKind, Prediction};
use nest_lang::{BlockRef, Head, Nest, Part};
use std::alloc::{AllocError, Global};

/// The present blocks with their forms, and for each of them the bounds of the loop of which it is the head.
#[derive(Drop)]
struct Blocks<const D: usize> {
    blocks: Vec<BlockForms<D>>,
    bounds: Vec<Bounds<D>>,
}

/// The fit of a nest of D loops in a file with so many scalars: the prediction in which each datum has the fit of its
/// samples. An address may lie in a tube that is at most 64 wide, and every other datum lies on its line. Where a datum
/// has no fit, the first one is answered, with the reason: blocks in the order of the text, and in a block the scalars,
/// the accesses, the lower bound and the trip. A datum without samples has no form. D is at most 6.
pub fn fit<const D: usize>(
    alloc: Global,
    nest: &Nest,
    scalars: u8,
    samples: &Samples,
) -> Result<Prediction<D>, FitEnd<D>>
    requires few { D < 7 }
    requires depth { length nest.now.loops ≡ D }
    requires scalars { scalars ≤ 16 }
    requires keeps { NestKeeps scalars nest.now.loops }
    ensures { MatchResult result (λ pred. IsFitOf D scalars nest.now.loops samples.now pred) (λ end. IsFitEnd D scalars nest.now.loops samples.now end) }
{
    let Blocks { blocks, bounds } = fit_blocks(alloc, nest, scalars, samples)?;
    let levels = fit_levels(alloc, nest, bounds.as_slice())?;
    Ok(Prediction::new(levels, blocks))
}

/// The present blocks with the fits of their data.
fn fit_blocks<const D: usize>(
    alloc: Global,
    nest: &Nest,
    scalars: u8,
    samples: &Samples,
) -> Result<Blocks<D>, FitEnd<D>>
    requires few { D < 7 }
    requires shallow { length nest.now.loops ≤ 6 }
    requires keeps { NestKeeps scalars nest.now.loops }
    ensures { MatchResult result (λ fits. AreBlockFits D scalars nest.now.loops samples.now (length (present_blocks nest.now.loops)) fits.blocks.items fits.bounds.items) (λ end. IsFitEnd D scalars nest.now.loops samples.now end) }
{
    let mut blocks = Vec::new(alloc);
    let mut bounds = Vec::new(alloc);
    for (rank, block) in nest.blocks().as_slice().iter().enumerate() {
        let site = Site {
            rank: rank as u8,
            block: *block,
        };
        let fit = site.block(alloc, nest, scalars, samples)?;
        blocks.push(fit.forms)?;
        bounds.push(fit.bounds)?;
    }
    Ok(Blocks { blocks, bounds })
}

/// The loops, each with the bounds that its head has. It is refused also where the values of a loop's name reach further
/// than in any run.
fn fit_levels<const D: usize>(
    alloc: Global,
    nest: &Nest,
    bounds: &[Bounds<D>],
) -> Result<Vec<LoopForms<D>>, AllocError>
    requires few { D < 7 }
    requires shallow { length nest.now.loops ≤ 6 }
    ensures levels { IfOk result (λ levels. AreLevels nest.now.loops bounds.now (length nest.now.loops) levels.items) }
    ensures reach { IfOk result (λ levels. StayWithinReach levels.items) }
{
    let mut levels = Vec::new(alloc);
    for (around, at) in nest.loops.as_slice().iter().enumerate() {
        let own = own_bounds(nest, around as u8 + 1, bounds);
        let level = fit_level(&at.head, own);
        if !is_within_reach(&level) {
            return Err(AllocError);
        }
        levels.push(level)?;
    }
    Ok(levels)
}

/// The bounds that the head of the loop at a level has, where it is a block.
fn own_bounds<'a, const D: usize>(
    nest: &Nest,
    level: u8,
    bounds: &'a [Bounds<D>],
) -> Option<&'a Bounds<D>>
    requires { length nest.now.loops ≤ 6 }
    ensures { option_copied result ≡ own_bounds nest.now.loops bounds.now level }
{
    let block = BlockRef {
        part: Part::Head,
        level,
    };
    let rank = nest.rank(block)?;
    bounds.get(rank as usize)
}

/// A loop with the bounds that its head has.
fn fit_level<const D: usize>(head: &Head, own: Option<&Bounds<D>>) -> LoopForms<D>
    ensures level { result ≡ level_with (kind_of head.now) (option_copied own.entry) }
    ensures stride { stride_size result.kind ≤ 2 ^ 63 }
{
    let kind = kind_of(head);
    match own {
        Some(bounds) => LoopForms {
            kind,
            lower: bounds.lower,
            trip: bounds.trip,
        },
        None => LoopForms {
            kind,
            lower: None,
            trip: None,
        },
    }
}

/// The kind of the loop with this head.
fn kind_of(head: &Head) -> LoopKind
    ensures kind { result ≡ kind_of head.now }
    ensures stride { stride_size result ≤ 2 ^ 63 }
{
    match head {
        Head::For(_, _, stride) => LoopKind::For(*stride),
        Head::While(_) => LoopKind::While,
    }
}
