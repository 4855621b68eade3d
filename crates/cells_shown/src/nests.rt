//! Predictions of nests of two loops, each up by 1, whose statements are in the inner one.

ghost use Rattle.std.specs.Prelude.{◌≡◌, ◌<◌, ◌≤◌, ◌^◌, true, pos, Some, None, [], ◌∷◌, IfOk, unsigned_abs};
ghost use Rattle.domain.specs.Instances.{counter};

use affine::Form;
use domain::{AccessForm, BlockForms, LoopForms, LoopKind, Prediction};
use nest_lang::Part;
use std::alloc::{AllocError, Global};

/// Two loops, of which the inner one begins at 1 and has this trip; its block stores on this line.
pub fn two_loops(alloc: Global, trip: Form<2>, line: Form<2>) -> Result<Prediction<2>, AllocError>
    requires outer { unsigned_abs (counter trip.coef 0) ≤ 2 ^ 40 }
    requires inner { unsigned_abs (counter trip.coef 1) ≤ 2 ^ 40 }
    requires constant { unsigned_abs trip.cst ≤ 2 ^ 63 }
{
    let lower = Form {
        coef: [0, 0],
        cst: 1,
    };
    let mut levels = Vec::new(alloc);
    levels.push(outermost())?;
    levels.push(inner(lower, trip))?;
    let mut blocks = Vec::new(alloc);
    blocks.push(head(alloc, 2))?;
    blocks.push(storing(alloc, 2, line)?)?;
    Ok(Prediction::new(levels, blocks))
}

/// The outermost loop, whose trip isn't predicted.
fn outermost<const D: usize>() -> LoopForms<D>
    requires { D < 7 }
    ensures { result ≡ record { kind = LoopKind.For (pos 1); lower = None; trip = None } }
{
    LoopForms {
        kind: LoopKind::For(1),
        lower: None,
        trip: None,
    }
}

/// An inner loop with its lower bound and its trip.
fn inner<const D: usize>(lower: Form<D>, trip: Form<D>) -> LoopForms<D>
    requires { D < 7 }
    ensures { result ≡ record { kind = LoopKind.For (pos 1); lower = Some lower.entry; trip = Some trip.entry } }
{
    LoopForms {
        kind: LoopKind::For(1),
        lower: Some(lower),
        trip: Some(trip),
    }
}

/// The head of the loop of a level.
fn head<const D: usize>(alloc: Global, level: u8) -> BlockForms<D>
    requires { D < 7 }
    ensures { result ≡ record { part = Part.Head; level = level; scalars = []; accesses = [] } }
{
    BlockForms {
        part: Part::Head,
        level,
        scalars: Vec::new(alloc),
        accesses: Vec::new(alloc),
    }
}

/// The innermost block, with one store on a line.
fn storing<const D: usize>(
    alloc: Global,
    level: u8,
    line: Form<D>,
) -> Result<BlockForms<D>, AllocError>
    requires { D < 7 }
    ensures { IfOk result (λ block. block ≡ record { part = Part.Pre; level = level; scalars = []; accesses = (record { stores = true; line = Some line.entry; low = pos 0; high = pos 0 }) ∷ [] }) }
{
    let mut accesses = Vec::new(alloc);
    accesses.push(AccessForm {
        stores: true,
        line: Some(line),
        low: 0,
        high: 0,
    })?;
    Ok(BlockForms {
        part: Part::Pre,
        level,
        scalars: Vec::new(alloc),
        accesses,
    })
}
