//! The ways in which a schedule can be violated.

ghost use Rattle.std.specs.Prelude.{◌≡◌, ◌<◌, ◌≤◌, IfOk};
ghost use Rattle.std.specs.List.{All, flat_map, range_with_len};
ghost use Rattle.dependence.specs.Legality.{violations_of};
ghost use Rattle.legality.specs.Judgements.{climbs};
ghost use Rattle.certify.specs.Certificates.{IsRowOf};

use dependence::Side;
use std::alloc::{AllocError, Global};
use std::marker::Model;
use transform::Schedule;

/// A row of a schedule, from 1, and the side on which it is violated.
#[derive(Drop)]
pub(crate) struct Violated {
    pub row: u8,
    pub side: Side,
}

impl Model for Violated {
    ghost use Rattle.dependence.specs.Legality as legality;
    ghost use Rattle.dependence.specs.Sides.{is_above};

    ghost Value = { legality.Violated };

    ghost view = { λ v. record { row = v.row; above = is_above v.side } };
}

/// The violations of a schedule, in order: each row below, and a parallel row of the band above too.
pub(crate) fn violations<const D: usize>(
    alloc: Global,
    schedule: &Schedule<D>,
) -> Result<Vec<Violated>, AllocError>
    requires { D < 7 }
    ensures value { IfOk result (λ found. found.items ≡ flat_map (violations_of schedule.now) (range_with_len 1 D)) }
    ensures rows { IfOk result (λ found. All (IsRowOf D) found.items) }
{
    let mut found = Vec::new(alloc);
    for row in 1..D as u8 + 1 {
        found.push(Violated {
            row,
            side: Side::Below,
        })?;
        if is_parallel_in_band(schedule, row) {
            found.push(Violated {
                row,
                side: Side::Above,
            })?;
        }
    }
    Ok(found)
}

/// Whether a row, from 1, is a parallel row of the band.
fn is_parallel_in_band<const D: usize>(schedule: &Schedule<D>, row: u8) -> bool
    requires from { 1 ≤ row }
    requires to { row ≤ D }
    ensures { result ≡ climbs schedule.now row }
{
    schedule.seq() < row as usize && schedule.is_parallel(row as usize - 1)
}
