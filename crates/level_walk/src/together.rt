//! The walks of several blocks in one cell.

ghost use Rattle.std.specs.Prelude.{◌≡◌, ◌<◌, ◌≤◌, ◌∷◌, ℕ, [], length, IsNone, IfSome, None};
ghost use Rattle.level_walk.specs.Merges.{AllOrdered, first, merged, stepped};
ghost use Rattle.level_walk.specs.Walks.{AllStand, AreBlocks, IsBox, all_left, all_points};

use crate::merges::{Best, chosen};
use crate::scans::BlockScan;
use crate::states::{State, head};

/// The next of what the blocks have left, by place and then by rank.
pub fn next(
    variables: usize,
    blocks: &[BlockScan],
    lows: &[i64],
    highs: &[i64],
    states: &mut [State; 18],
) -> Option<Best>
    requires blocks { AreBlocks variables blocks.now }
    requires cell { IsBox variables lows.now highs.now }
    requires stand { AllStand lows.now highs.now blocks.now states.old }
    requires ordered { AllOrdered (all_left lows.now highs.now blocks.now states.old) }
    ensures stand { AllStand lows.now highs.now blocks.now states.new }
    ensures ordered { AllOrdered (all_left lows.now highs.now blocks.now states.new) }
    ensures some { IfSome result (λ best. merged (all_left lows.now highs.now blocks.now states.old) ≡ best ∷ merged (all_left lows.now highs.now blocks.now states.new)) }
    ensures none { IsNone result → (merged (all_left lows.now highs.now blocks.now states.old) ≡ []) × (states.new ≡ states.old) }
{
    let best = least(blocks, lows, highs, states)?;
    step(variables, blocks, lows, highs, states, best.rank);
    Some(best)
}

/// Takes the first point of one block off.
fn step(
    variables: usize,
    blocks: &[BlockScan],
    lows: &[i64],
    highs: &[i64],
    states: &mut [State; 18],
    rank: usize,
)
    requires inside { rank < length blocks.now }
    requires blocks { AreBlocks variables blocks.now }
    requires cell { IsBox variables lows.now highs.now }
    requires stand { AllStand lows.now highs.now blocks.now states.old }
    ensures stand { AllStand lows.now highs.now blocks.now states.new }
    ensures left { all_left lows.now highs.now blocks.now states.new ≡ stepped rank (all_left lows.now highs.now blocks.now states.old) }
{
    blocks[rank].step(variables, lows, highs, &mut states[rank]);
}

/// The least of the first points.
fn least(blocks: &[BlockScan], lows: &[i64], highs: &[i64], states: &[State; 18]) -> Option<Best>
    requires few { length blocks.now ≤ 18 }
    requires stand { AllStand lows.now highs.now blocks.now states.now }
    ensures { result ≡ first None 0 (all_left lows.now highs.now blocks.now states.now) }
{
    let mut best = None;
    for (rank, _block) in blocks.iter().enumerate() {
        best = chosen(best, rank, head(&states[rank]));
    }
    best
}

/// The start of the walks in a cell.
pub fn start(
    variables: usize,
    blocks: &[BlockScan],
    lows: &[i64],
    highs: &[i64],
    states: &mut [State; 18],
)
    requires blocks { AreBlocks variables blocks.now }
    requires cell { IsBox variables lows.now highs.now }
    ensures stand { AllStand lows.now highs.now blocks.now states.new }
    ensures ordered { AllOrdered (all_left lows.now highs.now blocks.now states.new) }
    ensures left { all_left lows.now highs.now blocks.now states.new ≡ all_points lows.now highs.now blocks.now }
{
    for (rank, block) in blocks.iter().enumerate() {
        states[rank] = block.started(variables, lows, highs);
    }
}
