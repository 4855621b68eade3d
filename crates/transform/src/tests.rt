//! Schedules with known answers.

use crate::{Key, Schedule, schedule_of, standard};
use arrayvec::ArrayVec;
use nest_lang::Command;
use std::test::Fail;

/// The command that marks one row parallel.
fn parallel(row: u8) -> Command {
    let mut rows = ArrayVec::new();
    rows.push(row);
    Command::Par(rows)
}

/// The command that marks one row as a wave row.
fn wave(row: u8) -> Command {
    let mut rows = ArrayVec::new();
    rows.push(row);
    Command::Wave(rows)
}

/// The schedule of a script for two loops.
fn two_loops(script: &[Command]) -> Result<Schedule<2>, Fail> {
    Ok(schedule_of::<2>(script).ok_or("a rule is broken")?)
}

#[test]
fn a_skew_by_one(rt: HostRuntime) -> Result<(), Fail> {
    let schedule = two_loops(&[
        Command::Skew(2, 1, 1),
        Command::Tile(1, 4),
        Command::Tile(2, 4),
    ])?;
    assert_eq!(rt; schedule.place_of(&[5, 2]), [5, 7]);
    assert_eq!(rt; schedule.tile_of(&[5, 2]), [1, 1]);
    assert_eq!(rt;
        schedule.phase_of(&[5, 2]),
        Key {
            lead: [0, 0],
            wave: 2
        }
    );
    Ok(())
}

#[test]
fn tiles_are_rounded_down(rt: HostRuntime) -> Result<(), Fail> {
    let schedule = two_loops(&[Command::Skew(2, 1, -1), Command::Tile(2, 4)])?;
    assert_eq!(rt; schedule.place_of(&[5, 2]), [5, -3]);
    assert_eq!(rt; schedule.tile_of(&[5, 2]), [5, -1]);
    assert_eq!(rt;
        schedule.phase_of(&[5, 2]),
        Key {
            lead: [0, 0],
            wave: 4
        }
    );
    Ok(())
}

#[test]
fn sizes_and_marks_stay_with_their_rows(rt: HostRuntime) -> Result<(), Fail> {
    let schedule = two_loops(&[Command::Tile(1, 4), parallel(1), Command::Swap(1, 2)])?;
    assert_eq!(rt; schedule.size(0), 4);
    assert!(rt; schedule.is_parallel(0));
    assert_eq!(rt; schedule.matrix().rows, [[0, 1], [1, 0]]);
    assert_eq!(rt; schedule.tile_of(&[5, 2]), [0, 5]);
    assert_eq!(rt;
        schedule.phase_of(&[5, 2]),
        Key {
            lead: [0, 0],
            wave: 5
        }
    );
    Ok(())
}

#[test]
fn leading_rows_are_no_part_of_the_wave(rt: HostRuntime) -> Result<(), Fail> {
    let schedule = two_loops(&[Command::Seq(1), Command::Tile(2, 4)])?;
    assert_eq!(rt; schedule.seq(), 1);
    assert_eq!(rt; schedule.tile_of(&[5, 9]), [0, 2]);
    assert_eq!(rt;
        schedule.phase_of(&[5, 9]),
        Key {
            lead: [5, 0],
            wave: 2
        }
    );
    Ok(())
}

#[test]
fn a_later_mark_counts(rt: HostRuntime) -> Result<(), Fail> {
    let schedule = two_loops(&[parallel(2), parallel(1), wave(2)])?;
    assert!(rt; schedule.is_parallel(0));
    assert!(rt; !schedule.is_parallel(1));
    Ok(())
}

#[test]
fn the_inverse_goes_with_the_matrix(rt: HostRuntime) -> Result<(), Fail> {
    let schedule = two_loops(&[Command::Skew(2, 1, 3)])?;
    assert_eq!(rt; schedule.matrix().rows, [[1, 0], [3, 1]]);
    assert_eq!(rt; schedule.columns().rows, [[1, -3], [0, 1]]);
    Ok(())
}

#[test]
fn broken_rules(rt: HostRuntime) {
    assert!(rt; schedule_of::<2>(&[]).is_some());
    assert!(rt; schedule_of::<2>(&[Command::Seq(3)]).is_none());
    assert!(rt; schedule_of::<2>(&[Command::Seq(1), Command::Seq(1)]).is_none());
    assert!(rt; schedule_of::<2>(&[Command::Swap(1, 1)]).is_none());
    assert!(rt; schedule_of::<2>(&[Command::Skew(2, 1, 9)]).is_none());
    assert!(rt; schedule_of::<2>(&[Command::Skew(3, 1, 1)]).is_none());
    assert!(rt; schedule_of::<2>(&[Command::Tile(0, 4)]).is_none());
    assert!(rt; schedule_of::<2>(&[Command::Tile(1, 0)]).is_none());
    assert!(rt; schedule_of::<2>(&[Command::Tile(1, 65_537)]).is_none());
    assert!(rt; schedule_of::<2>(&[Command::Par(ArrayVec::new())]).is_none());
    assert!(rt; schedule_of::<2>(&[wave(3)]).is_none());
}

#[test]
fn six_skews_of_eight(rt: HostRuntime) -> Result<(), Fail> {
    let script = [
        Command::Skew(2, 1, 8),
        Command::Skew(1, 2, 8),
        Command::Skew(2, 1, 8),
        Command::Skew(1, 2, 8),
        Command::Skew(2, 1, 8),
        Command::Skew(1, 2, 8),
    ];
    let schedule = two_loops(&script)?;
    assert_eq!(rt;
        schedule.matrix().rows,
        [[283_009, 34_840], [34_840, 4_289]]
    );
    assert_eq!(rt;
        schedule.place_of(&[1_152_921_504_606_846_976, 0]),
        [
            326_287_162_097_279_155_830_784,
            40_167_785_220_502_548_643_840
        ]
    );
    Ok(())
}

#[test]
fn standard_candidates(rt: HostRuntime) -> Result<(), Fail> {
    assert!(rt; standard::<1>(3).is_none());
    assert!(rt; standard::<2>(0).is_none());
    assert!(rt; standard::<2>(6).is_none());
    assert!(rt; standard::<6>(5).is_some());
    let skewed = standard::<2>(4).ok_or("the table has it")?;
    assert_eq!(rt; skewed.matrix().rows, [[1, 0], [1, 1]]);
    assert_eq!(rt; skewed.tile_of(&[5, 2]), [1, 1]);
    let last = standard::<3>(5).ok_or("the table has it")?;
    assert_eq!(rt; last.seq(), 2);
    assert_eq!(rt;
        last.phase_of(&[3, 4, 17]),
        Key {
            lead: [3, 4, 0],
            wave: 2
        }
    );
    Ok(())
}

#[test]
fn keys_compare_by_the_first_difference(rt: HostRuntime) {
    let first = Key {
        lead: [1, 9],
        wave: 7,
    };
    assert!(rt;
        first
            < Key {
                lead: [2, 0],
                wave: 0
            }
    );
    assert!(rt;
        first
            < Key {
                lead: [1, 9],
                wave: 8
            }
    );
    assert!(rt;
        first
            > Key {
                lead: [1, 9],
                wave: -8
            }
    );
}
