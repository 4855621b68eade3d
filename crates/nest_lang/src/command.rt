//! The commands of a candidate's script.

use arrayvec::ArrayVec;

/// One command. Loops are numbered by their level, from 1.
#[derive(Clone, Debug, Drop, PartialEq, Eq)]
pub enum Command {
    Seq(u8),
    Swap(u8, u8),
    Skew(u8, u8, i64),
    Tile(u8, i64),
    Par(ArrayVec<u8, 6>),
    Wave(ArrayVec<u8, 6>),
}
