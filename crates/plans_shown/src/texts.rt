//! The texts of plans.

use core_steps::Tile;
use skeletons::Cell;
use std::alloc::{AllocError, Global};
use tiles::{ChunkPlan, Phase, Stripe};

/// The numbers of a plan.
pub fn numbers_text<const D: usize>(
    alloc: Global,
    plan: &ChunkPlan<D>,
) -> Result<String, AllocError> {
    format!(in alloc;
        "instances {} phases {} tiles {} stripes {}",
        plan.instances,
        plan.phases.len(),
        plan.tiles,
        plan.stripes.len()
    )
}

/// The numbers of a plan, its phases with their tiles, and its stripes.
pub fn plan_text<const D: usize>(alloc: Global, plan: &ChunkPlan<D>) -> Result<String, AllocError> {
    let mut text = numbers_text(alloc, plan)?;
    for phase in &plan.phases {
        push_phase(alloc, &mut text, phase)?;
    }
    for stripe in &plan.stripes {
        push_stripe(alloc, &mut text, stripe)?;
    }
    Ok(text)
}

/// Writes a phase: a line for each of its cells, with what the cell's tile reads and writes.
fn push_phase<const D: usize>(
    alloc: Global,
    text: &mut String,
    phase: &Phase<D>,
) -> Result<(), AllocError> {
    text.push_str("\nphase")?;
    for (number, cell) in phase.cells.iter().enumerate() {
        push_cell(alloc, text, cell)?;
        if let Some(tile) = phase.plan.tiles.as_slice().get(number) {
            push_tile(alloc, text, tile)?;
        }
    }
    Ok(())
}

/// Writes a cell.
fn push_cell<const D: usize>(
    alloc: Global,
    text: &mut String,
    cell: &Cell<D>,
) -> Result<(), AllocError> {
    text.push_str("\n  cell lead")?;
    push_numbers(alloc, text, &cell.lead)?;
    text.push_str(format!(in alloc; " wave {} tile", cell.wave)?.as_str())?;
    push_numbers(alloc, text, &cell.tile)
}

/// Writes what a tile reads and writes.
fn push_tile(alloc: Global, text: &mut String, tile: &Tile) -> Result<(), AllocError> {
    text.push_str(" reads")?;
    push_addresses(alloc, text, tile.reads.as_slice())?;
    text.push_str(" writes")?;
    push_addresses(alloc, text, tile.writes.as_slice())
}

/// Writes a stripe.
fn push_stripe(alloc: Global, text: &mut String, stripe: &Stripe) -> Result<(), AllocError> {
    let more = format!(in alloc;
        "\nstripe {} step {} count {}",
        stripe.first, stripe.step, stripe.count
    )?;
    text.push_str(more.as_str())
}

/// Writes numbers, each behind a blank.
fn push_numbers(alloc: Global, text: &mut String, numbers: &[i64]) -> Result<(), AllocError> {
    for number in numbers {
        text.push_str(format!(in alloc; " {number}")?.as_str())?;
    }
    Ok(())
}

/// Writes addresses, each behind a blank.
fn push_addresses(alloc: Global, text: &mut String, addresses: &[u64]) -> Result<(), AllocError> {
    for address in addresses {
        text.push_str(format!(in alloc; " {address}")?.as_str())?;
    }
    Ok(())
}
