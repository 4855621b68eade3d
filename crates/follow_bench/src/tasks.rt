//! The task of a chunk that is launched.

ghost use Rattle.std.specs.Prelude.{◌≡◌, ◌<◌, ℤ, pos, IfSome, IsTrue, None};
ghost use Rattle.nest_lang.specs.Rules.{NestKeeps};
ghost use Rattle.nest_lang.specs.Turns.{IsPositionIn};
ghost use Rattle.domain.specs.Shapes.{IsTableOf, LowersWithTrips};
ghost use Rattle.follow.specs.ChunkRuns.{HasTurnsIn};
ghost use Rattle.follow_chunk.specs.Tasks.{task_of, IsTask};

use domain::{Chunk, LoopForms, LoopKind, Prediction, launch};
use follow_chunk::Task;
use nest_lang::{Nest, Outer};

/// A nest of a file with so many scalars, with its prediction, and where its outermost loop stands.
#[derive(Clone, Copy)]
pub struct Foretold<'a, const D: usize> {
    pub nest: &'a Nest,
    pub scalars: u8,
    pub pred: &'a Prediction<D>,
    pub outer: Outer,
}

impl<'a, const D: usize> Foretold<'a, D> {
    /// Whether each `for` with a form of its trip has one of its lower bound.
    fn has_lowers(&self) -> bool
        ensures { IsTrue result → LowersWithTrips self.now.pred.now }
    {
        let _blocks = self.pred.block_count();
        for around in 0..D {
            if !has_lower(self.pred.level(around)) {
                return false;
            }
        }
        true
    }

    /// Whether the outermost loop has so many further turns.
    fn has_turns(&self, turns: u32) -> bool
        requires { IsPositionIn self.now.nest.now.loops self.now.outer }
        ensures { IsTrue result → HasTurnsIn self.now.nest.now.loops self.now.outer turns }
    {
        match self.outer.left {
            Some(left) => u64::from(turns) <= left,
            None => true,
        }
    }

    /// The task of the next turns, 1 to 1,024, over so many words; None where the loop hasn't got them or they are held.
    pub fn task(&self, turns: u32, words: usize) -> Option<Task<'a, D>>
        requires few { D < 7 }
        requires keeps { NestKeeps self.now.scalars self.now.nest.now.loops }
        requires table { IsTableOf self.now.scalars self.now.nest.now.loops self.now.pred.now }
        requires position { IsPositionIn self.now.nest.now.loops self.now.outer }
        ensures { IfSome result (λ task. IsTask D (task_of task) (pos words)) }
    {
        let _blocks = self.pred.block_count();
        let first = self.outer.next;
        if turns < 1 || turns > 1024 || first > 1 << 32 {
            return None;
        }
        if !self.has_turns(turns) || !self.has_lowers() {
            return None;
        }
        let chunk = Chunk {
            first,
            turns: i64::from(turns),
        };
        let Ok(_launched) = launch(self.pred, chunk, words as u64) else {
            return None;
        };
        Some(Task {
            nest: self.nest,
            pred: self.pred,
            scalars: self.scalars,
            outer: self.outer,
            chunk,
        })
    }
}

/// Whether a loop that is a `for` with a form of its trip has one of its lower bound.
fn has_lower<const D: usize>(level: &LoopForms<D>) -> bool
    ensures { IsTrue result → (stride : ℤ) → level.now.kind ≡ LoopKind.For stride → level.now.lower ≡ None → level.now.trip ≡ None }
{
    match level.kind {
        LoopKind::For(_) => level.lower.is_some() || level.trip.is_none(),
        LoopKind::While => true,
    }
}
