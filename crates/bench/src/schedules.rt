//! Places, tiles and keys of a square of points over two loops.
use nest_lang::Command;
use transform::{Schedule, schedule_of};

/// The side of the square.
const SIDE: i64 = 1_001;

/// The exclusive or of all numbers that come of `skew 2 1 1; tile 1 4; tile 2 4`, and 0 where that is no schedule.
pub fn scheduled() -> i128 {
    let script = [
        Command::Skew(2, 1, 1),
        Command::Tile(1, 4),
        Command::Tile(2, 4),
    ];
    match schedule_of::<2>(&script) {
        Some(schedule) => places(&schedule) ^ tiles(&schedule) ^ phases(&schedule),
        None => 0,
    }
}

/// The places of the square.
fn places(schedule: &Schedule<2>) -> i128 {
    let mut numbers = 0;
    for i in 0..SIDE {
        for j in 0..SIDE {
            let place = schedule.place_of(&[i, j]);
            numbers ^= place[0] ^ place[1];
        }
    }
    numbers
}

/// The tiles of the square.
fn tiles(schedule: &Schedule<2>) -> i128 {
    let mut numbers = 0;
    for i in 0..SIDE {
        for j in 0..SIDE {
            let tile = schedule.tile_of(&[i, j]);
            numbers ^= tile[0] ^ tile[1];
        }
    }
    numbers
}

/// The keys of the square.
fn phases(schedule: &Schedule<2>) -> i128 {
    let mut numbers = 0;
    for i in 0..SIDE {
        for j in 0..SIDE {
            let key = schedule.phase_of(&[i, j]);
            numbers ^= key.lead[0] ^ key.wave;
        }
    }
    numbers
}
