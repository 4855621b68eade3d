//! The plan of a chunk: which of its tiles run in which phase, what each of them touches, and what is to be kept before
//! the first of them runs.
//!
//! The cells of a phase have one phase key, and the phases run in the order of their keys. A phase has one tile a cell:
//! what the tile may read and write is the union of the footprints of the cell's instances, found run by run. Where the
//! schedule is legal, no tile of a phase writes what another one touches. The stripes have the addresses of all predicted
//! stores. The crate stands on `skeletons` (cells and runs), `dependence` (tiles of one phase don't conflict), `domain`
//! (predictions and footprints), `follow_chunk` (tasks) and `core_steps` (plans). The layer above keeps the words at the
//! stripes, and runs the phases, one after another.
#![tactic(auto)]

mod chunk_plan;
mod group;
mod phase;
mod strip;
mod stripe;
mod sums;
mod touching;

pub use chunk_plan::{ChunkPlan, plan};
pub use phase::Phase;
pub use stripe::Stripe;
