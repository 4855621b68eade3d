//! How the points of a block are found.

ghost use Rattle.std.specs.Prelude.{◌≡◌, ◌<◌, ◌≤◌, ℕ, length, drop, IfOk};
ghost use Rattle.level_walk.specs.Stretches.{AreRunsOf};

use crate::cells::cell_runs;
use crate::cursor::Point;
use crate::listings::{moved_listing, started_listing};
use crate::runs::Run;
use crate::states::{State, started, step};
use crate::stretches::listed_runs;
use affine::Row;
use fourier_motzkin::Scan;
use std::alloc::{AllocError, Global};

/// The rows of a block, and their scan.
#[derive(Drop)]
pub struct Scanning {
    pub scan: Scan,
    pub rows: Vec<Row>,
}

/// The points of a block, in lexicographic order.
#[derive(Drop)]
pub struct Listing {
    pub points: Vec<Point>,
}

/// How the points of a block are found: by a scan, or among those that are listed.
#[derive(Drop)]
pub enum BlockScan {
    Scanned(Scanning),
    Listed(Listing),
}

impl BlockScan {
    ghost use Rattle.level_walk.specs.Walks.{IsBlock, IsBox, StandsIn, left_in, points_in};

    /// The start of the walk over the points in a cell.
    pub fn started(&self, variables: usize, lows: &[i64], highs: &[i64]) -> State
        requires block { IsBlock variables self.now }
        requires cell { IsBox variables lows.now highs.now }
        ensures stands { StandsIn lows.now highs.now self.now result }
        ensures left { left_in lows.now highs.now self.now result ≡ points_in lows.now highs.now self.now }
    {
        match self {
            BlockScan::Scanned(block) => {
                started(&block.scan, block.rows.as_slice(), lows, highs)
            },
            BlockScan::Listed(block) => {
                started_listing(variables, block.points.as_slice(), lows, highs)
            },
        }
    }

    /// The runs of the points in a cell, by their first points.
    pub fn runs(
        &self,
        alloc: Global,
        variables: usize,
        lows: &[i64],
        highs: &[i64],
    ) -> Result<Vec<Run>, AllocError>
        requires block { IsBlock variables self.now }
        requires cell { IsBox variables lows.now highs.now }
        ensures { IfOk result (λ runs. AreRunsOf (points_in lows.now highs.now self.now) runs.items) }
    {
        match self {
            BlockScan::Scanned(block) => {
                cell_runs(alloc, &block.scan, block.rows.as_slice(), lows, highs)
            },
            BlockScan::Listed(block) => {
                listed_runs(alloc, variables, block.points.as_slice(), lows, highs)
            },
        }
    }

    /// Takes the first point off the walk.
    pub fn step(&self, variables: usize, lows: &[i64], highs: &[i64], state: &mut State)
        requires block { IsBlock variables self.now }
        requires cell { IsBox variables lows.now highs.now }
        requires stands { StandsIn lows.now highs.now self.now state.old }
        ensures stands { StandsIn lows.now highs.now self.now state.new }
        ensures left { left_in lows.now highs.now self.now state.new ≡ drop 1 (left_in lows.now highs.now self.now state.old) }
    {
        match self {
            BlockScan::Scanned(block) => {
                step(&block.scan, block.rows.as_slice(), lows, highs, state);
            },
            BlockScan::Listed(block) => {
                *state = moved_listing(variables, block.points.as_slice(), lows, highs, state);
            },
        }
    }
}
