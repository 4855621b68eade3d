//! A task for programs that show or time the workers of a phase: the first turn of `for i = 0 below 40 { [i] = 1 }`,
//! with what is predicted of it. It is the example of `domain` (`row`) and of `follow_chunk` (`one_row`, `one_turn`),
//! as values.
#![tactic(auto)]

ghost use Rattle.std.specs.Prelude.{◌≡◌, pos, Some, IfOk};
ghost use Rattle.domain.specs.Examples.{row};
ghost use Rattle.follow_chunk.specs.Laws.{one_row, one_turn};

use affine::Form;
use domain::{AccessForm, BlockForms, Chunk, LoopForms, LoopKind, Prediction};
use follow_chunk::Task;
use nest_lang::{Expr, Head, Loop, Nest, Outer, Part, Place, Stmt};
use sqlite_items::Items;
use std::alloc::{AllocError, Global};

/// The first turn of the nest, with what is predicted of it.
pub fn task<'a>(nest: &'a Nest, pred: &'a Prediction<1>) -> Task<'a, 1>
    ensures nest { result.nest.now ≡ nest.now }
    ensures pred { result.pred.now ≡ pred.now }
    ensures scalars { result.scalars ≡ 0 }
    ensures outer { result.outer ≡ record { lower = pos 0; next = pos 0; left = Some 40 } }
    ensures chunk { result.chunk ≡ one_turn }
{
    Task {
        nest,
        pred,
        scalars: 0,
        outer: Outer {
            lower: 0,
            next: 0,
            left: Some(40),
        },
        chunk: Chunk { first: 0, turns: 1 },
    }
}

/// `for i = 0 below 40 { [i] = 1 }`.
pub fn nest(alloc: Global) -> Result<Nest, AllocError>
    ensures { IfOk result (λ nest. nest.loops ≡ one_row) }
{
    let mut body = Items::new(alloc);
    body.push(Stmt::Store(1, Expr::Var(Place::Counter(0)), Expr::Number(1)))?;
    let mut loops = Items::new(alloc);
    loops.push(Loop {
        head: Head::For(Expr::Number(0), Expr::Number(40), 1),
        pre: body,
        post: Items::new(alloc),
    })?;
    Ok(Nest { loops })
}

/// What is predicted of it.
pub fn prediction(alloc: Global) -> Result<Prediction<1>, AllocError>
    ensures { IfOk result (λ pred. pred ≡ row) }
{
    let mut levels = Vec::new(alloc);
    levels.push(LoopForms {
        kind: LoopKind::For(1),
        lower: None,
        trip: None,
    })?;
    let mut accesses = Vec::new(alloc);
    accesses.push(AccessForm {
        stores: true,
        line: Some(Form { coef: [1], cst: 0 }),
        low: 0,
        high: 0,
    })?;
    let mut blocks = Vec::new(alloc);
    blocks.push(BlockForms {
        part: Part::Pre,
        level: 1,
        scalars: Vec::new(alloc),
        accesses,
    })?;
    Ok(Prediction::new(levels, blocks))
}
