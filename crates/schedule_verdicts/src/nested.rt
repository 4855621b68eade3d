//! The prediction of a nest whose statements are all in its innermost loop.

ghost use Rattle.std.specs.Prelude.{◌≡◌, ◌≤◌, ◌<◌, ◌-◌, ◌++◌, ◌∷◌, [], length, map, IfOk};
ghost use Rattle.std.specs.List.{All, range_with_len};
ghost use Rattle.schedule_verdicts.specs.Nests.{IsCounted, head, innermost};

use crate::asked::Shape;
use domain::{AccessForm, BlockForms, Prediction};
use nest_lang::Part;
use std::alloc::{AllocError, Global};

/// The prediction of a nest of these loops with these accesses in the innermost one.
pub fn nested<const D: usize>(alloc: Global, shape: Shape<D>) -> Result<Prediction<D>, AllocError>
    requires some { 0 < D }
    requires few { D < 7 }
    requires count { length shape.levels.items ≡ D }
    requires counted { All IsCounted shape.levels.items }
    requires short { length shape.accesses.items ≤ 64 }
{
    let Shape { levels, accesses } = shape;
    let blocks = blocks(alloc, accesses)?;
    Ok(Prediction::new(levels, blocks))
}

/// The blocks: the heads of the inner loops, and the statements.
fn blocks<const D: usize>(
    alloc: Global,
    accesses: Vec<AccessForm<D>>,
) -> Result<Vec<BlockForms<D>>, AllocError>
    requires some { 0 < D }
    requires few { D < 7 }
    ensures { IfOk result (λ blocks. blocks.items ≡ map head (range_with_len 2 (D - 1)) ++ innermost D accesses.entry.items ∷ []) }
{
    let mut blocks = Vec::new(alloc);
    for level in 2..D as u8 + 1 {
        blocks.push(BlockForms {
            part: Part::Head,
            level,
            scalars: Vec::new(alloc),
            accesses: Vec::new(alloc),
        })?;
    }
    blocks.push(BlockForms {
        part: Part::Pre,
        level: D as u8,
        scalars: Vec::new(alloc),
        accesses,
    })?;
    Ok(blocks)
}
