//! The skeleton of a chunk.

ghost use Rattle.std.specs.Prelude.{◌≡◌, ◌<◌, ◌≤◌, IfOk};
ghost use Rattle.skeletons.specs.Cells.{AreCellsOf, IsLaunch};
ghost use Rattle.skeletons.specs.Frames.{IsFrame};
ghost use Rattle.skeletons.specs.Runs.{HasRuns};

use crate::block::{Scope, block_scan};
use crate::cell::{Cell, Run};
use crate::cell_list::cells_of;
use crate::frame::Frame;
use crate::inverse::transposed;
use crate::run_list::runs_in;
use domain::{Chunk, Prediction};
use std::alloc::{AllocError, Global};
use std::marker::Model;
use transform::Schedule;

/// What is known of a chunk before its cells are walked: how the places of each block are found.
#[derive(Drop)]
pub struct Skeleton<'a, const D: usize> {
    frame: Frame<'a, D>,
}

impl<'a, const D: usize> Model for Skeleton<'a, D> {
    ghost use Rattle.skeletons.specs.Cells.{Extent};
    ghost use Rattle.skeletons.specs.Frames.{IsFrame};

    ghost Value = { Extent };

    ghost view = { λ k. record { table = k.frame.pred.now; schedule = k.frame.schedule.now; chunk = k.frame.chunk } };

    ghost invariant = { λ k. IsFrame D (record { table = k.frame.pred.now; schedule = k.frame.schedule.now; chunk = k.frame.chunk }) k.frame.inverse k.frame.blocks.items };
}

impl<'a, const D: usize> Skeleton<'a, D> {
    /// The skeleton of a launched chunk of 1 to 1,024 turns, from a turn from 0 to 2^32: once for each block the rows
    /// that its places meet, with the rows before each elimination. D is from 1 to 6.
    pub fn new(
        alloc: Global,
        pred: &'a Prediction<D>,
        schedule: &'a Schedule<D>,
        chunk: Chunk,
    ) -> Result<Skeleton<'a, D>, AllocError>
        requires some { 1 ≤ D }
        requires few { D < 7 }
        requires launch { IsLaunch pred.now chunk }
        ensures { IfOk result (λ skeleton. skeleton ≡ record { table = pred.now; schedule = schedule.now; chunk = chunk }) }
    {
        let columns = schedule.columns();
        let _matrix = schedule.matrix();
        let mut blocks = Vec::new(alloc);
        for rank in 0..pred.block_count() {
            let scope = Scope {
                pred,
                chunk,
                block: pred.block(rank as u8),
                columns,
            };
            blocks.push(block_scan(alloc, schedule, &scope, rank)?)?;
        }
        Ok(Skeleton {
            frame: Frame {
                pred,
                schedule,
                chunk,
                inverse: transposed(columns),
                blocks,
            },
        })
    }

    /// The cells that have an instance, by phase key and then by tile, and so each once.
    pub fn cells(&self, alloc: Global) -> Result<Vec<Cell<D>>, AllocError>
        ensures { IfOk result (λ cells. AreCellsOf self.now cells.items) }
    {
        cells_of(alloc, self.frame())
    }

    /// The runs of a cell, by the rank of the block and then by the place of the first instance. A cell without
    /// instances has none.
    pub fn runs(&self, alloc: Global, cell: &Cell<D>) -> Result<Vec<Run<D>>, AllocError>
        ensures { IfOk result (λ runs. HasRuns D self.now cell.now runs.items) }
    {
        runs_in(alloc, self.frame(), cell)
    }

    /// Its fields.
    pub(crate) fn frame(&self) -> &Frame<'a, D>
        ensures is { record { table = result.now.pred.now; schedule = result.now.schedule.now; chunk = result.now.chunk } ≡ self.now }
        ensures frame { IsFrame D (record { table = result.now.pred.now; schedule = result.now.schedule.now; chunk = result.now.chunk }) result.now.inverse result.now.blocks.items }
    {
        &self.frame
    }
}
