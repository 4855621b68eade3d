//! The points of a launched chunk by scanning.
//!
//! A skeleton is made once a chunk: of each block the rows that the places of its predicted instances meet, over the
//! numbers of the place alone, with the rows before each elimination. A walk over cells then finds the instances of each
//! cell by place and then by rank, and takes no memory. The crate stands on `level_walk` (points level by level, several
//! blocks merged), `domain` (instances, launched chunks) and `transform` (schedules and their inverse). The cells
//! of the chunk and the runs of a cell are listed from the same scans. The layers above plan phases of cells, and follow
//! the instances of a `Walk`.
#![tactic(auto)]

mod block;
mod cell;
mod cell_box;
mod cell_list;
mod frame;
mod inverse;
mod place_list;
mod places;
mod run_list;
mod side;
mod skeleton;
mod tile_walk;
mod walk;

pub use cell::{Cell, Run};
pub use skeleton::Skeleton;
pub use tile_walk::TileWalk;
pub use walk::Walk;
