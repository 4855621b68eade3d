//! Cells and their tiles, gathered by phase.

ghost use Rattle.std.specs.Prelude.{◌≡◌, ◌∷◌, [], OnOk, IfOk};
ghost use Rattle.tiles.specs.Groups.{added, alone, begins_with_key, ends_with_key, grown, has_key_of};

use crate::phase::Phase;
use core_steps::{Plan, Tile};
use skeletons::Cell;
use std::alloc::{AllocError, Global};
use std::marker::Model;

/// A phase that is being made: its cells so far, and the tile of each.
#[derive(Drop)]
pub struct Group<const D: usize> {
    cells: Vec<Cell<D>>,
    tiles: Vec<Tile>,
}

impl<const D: usize> Model for Group<D> {
    ghost use Rattle.tiles.specs.Plans.{Phase as Plain};

    ghost Value = { Plain };

    ghost view = { λ g. record { cells = g.cells.items; plan = record { tiles = g.tiles.items } } };
}

/// Whether two cells have one phase key.
fn has_key_of<const D: usize>(cell: &Cell<D>, other: &Cell<D>) -> bool
    ensures { result ≡ has_key_of cell.now other.now }
{
    cell.lead == other.lead && cell.wave == other.wave
}

impl<const D: usize> Group<D> {
    /// A phase of one cell.
    fn alone(alloc: Global, cell: Cell<D>, tile: Tile) -> Result<Group<D>, AllocError>
        ensures { IfOk result (λ group. group ≡ alone cell.entry tile) }
    {
        let mut cells = Vec::new(alloc);
        let mut tiles = Vec::new(alloc);
        cells.push(cell)?;
        tiles.push(tile)?;
        Ok(Group { cells, tiles })
    }

    /// One cell more.
    fn grow(&mut self, cell: Cell<D>, tile: Tile) -> Result<(), AllocError>
        ensures { OnOk result (self.new ≡ grown self.old cell.entry tile) }
    {
        self.cells.push(cell)?;
        self.tiles.push(tile)?;
        Ok(())
    }

    /// Whether the first cell has the phase key of a cell.
    fn begins_with_key(&self, cell: &Cell<D>) -> bool
        ensures { result ≡ begins_with_key self.now cell.now }
    {
        match self.cells.first() {
            Some(first) => has_key_of(first, cell),
            None => false,
        }
    }

    /// The phase: its cells, and the plan of the tiles.
    pub fn into_phase(self) -> Phase<D>
        ensures { result ≡ self.entry }
    {
        let Group { cells, tiles } = self;
        Phase {
            cells,
            plan: Plan::new(tiles),
        }
    }
}

/// Whether the last phase has the phase key of a cell.
fn ends_with_key<const D: usize>(groups: &[Group<D>], cell: &Cell<D>) -> bool
    ensures { result ≡ ends_with_key groups.now cell.now }
{
    match groups.last() {
        Some(group) => group.begins_with_key(cell),
        None => false,
    }
}

/// Adds a cell with its tile: to the last phase where that has the cell's key, and else as a phase of its own.
pub fn add<const D: usize>(
    alloc: Global,
    groups: &mut Vec<Group<D>>,
    cell: Cell<D>,
    tile: Tile,
) -> Result<(), AllocError>
    ensures { OnOk result (groups.new.items ≡ added groups.old.items cell.entry tile) }
{
    if ends_with_key(groups.as_slice(), &cell) {
        let last = groups.len() - 1;
        groups[last].grow(cell, tile)
    } else {
        groups.push(Group::alone(alloc, cell, tile)?)?;
        Ok(())
    }
}
