//! Phases of a plan.

use core_steps::Plan;
use skeletons::Cell;
use std::marker::Model;

/// A phase: its cells in order, and its plan, which has for each of them the tile with what its instances touch.
#[derive(Drop)]
pub struct Phase<const D: usize> {
    pub cells: Vec<Cell<D>>,
    pub plan: Plan,
}

impl<const D: usize> Model for Phase<D> {
    ghost use Rattle.tiles.specs.Plans.{Phase as Plain};

    ghost Value = { Plain };

    ghost view = { λ p. record { cells = p.cells.items; plan = p.plan } };
}
