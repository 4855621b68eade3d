//! Schedules, and where they put a point.

ghost use Rattle.std.specs.Prelude.{◌≡◌, ◌<◌, ◌≤◌, ◌^◌, ℤ, pos, List, unsigned_abs, if◌then◌else◌};
ghost use Rattle.std.specs.Int.{int_div_euclid};
ghost use Rattle.std.specs.List.{All};

use crate::Key;
use affine::{Matrix, Unimodular};
use std::marker::Model;

/// The greatest size of a row's tiles.
pub const LARGEST_SIZE: u32 = 65_536;

/// What a script means for a nest of D loops, D from 1 to 6: a matrix that maps whole-number points one to one and
/// onto, how many of its rows lead, and for each row the size of its tiles, from 1 to 65,536, and whether it is
/// parallel. It is made by `schedule_of` and `standard` alone.
#[derive(Debug, Drop)]
pub struct Schedule<const D: usize> {
    matrix: Unimodular<D>,
    seq: usize,
    size: [u32; D],
    parallel: [bool; D],
}

impl<const D: usize> Model for Schedule<D> {
    ghost use Rattle.transform.specs.Schedules.{IsMade};
    ghost use Rattle.transform.specs.Scripts.{schedule_from};

    ghost Value = { Rattle.transform.specs.Schedules.Schedule };

    ghost view = { λ s. schedule_from (record { rows = s.matrix.rows; seq = s.seq; sizes = s.size; parallel = s.parallel }) };

    ghost invariant = { λ s. IsMade D s.matrix.rows s.matrix.columns s.seq s.size };
}

impl<const D: usize> Schedule<D> {
    ghost use Rattle.affine.specs.Inverses.{IsInverse};
    ghost use Rattle.affine.specs.Matrices.{HasSmallEntries};
    ghost use Rattle.transform.specs.Schedules.{IsMade, IsSchedule, line_at, matrix, place, wave, wide_lead, wide_tile};
    ghost use Rattle.transform.specs.Scripts.{schedule_from};

    /// The schedule of these parts.
    pub(crate) fn new(
        matrix: Unimodular<D>,
        seq: usize,
        size: [u32; D],
        parallel: [bool; D],
    ) -> Schedule<D>
        requires { IsMade D matrix.rows matrix.columns seq size }
        ensures { result ≡ schedule_from (record { rows = matrix.entry.rows; seq = seq; sizes = size.entry; parallel = parallel.entry }) }
    {
        Schedule {
            matrix,
            seq,
            size,
            parallel,
        }
    }

    /// The matrix.
    pub fn matrix(&self) -> &Matrix<D>
        ensures value { result.now ≡ matrix self.now }
        ensures schedule { IsSchedule D self.now }
    {
        self.matrix.matrix()
    }

    /// The inverse of the matrix, by its columns: row k of what is given is column k of the inverse. So the points of
    /// a line of places differ by a column.
    pub fn columns(&self) -> &Matrix<D>
        ensures inverse { IsInverse D (matrix self.now) result.now }
        ensures small { HasSmallEntries result.now }
    {
        self.matrix.columns()
    }

    /// How many rows lead. Those after them are the band.
    pub fn seq(&self) -> usize
        ensures value { result ≡ self.now.seq }
        ensures most { result ≤ D }
    {
        self.seq
    }

    /// The size of the tiles of a row, whose number is from 0.
    pub fn size(&self, row: usize) -> u32
        requires { row < D }
        ensures { result ≡ (line_at self.now row).size }
    {
        self.size[row]
    }

    /// Whether a row is parallel, whose number is from 0. A row that isn't is a wave row.
    pub fn is_parallel(&self, row: usize) -> bool
        requires { row < D }
        ensures { result ≡ (line_at self.now row).parallel }
    {
        self.parallel[row]
    }

    /// The place of a padded point: the matrix times the point.
    pub fn place_of(&self, point: &[i64; D]) -> [i128; D]
        requires { D < 7 }
        ensures value { result ≡ place self.now point.now }
        ensures size { All (λ number. unsigned_abs number < 2 ^ 106) result }
    {
        self.matrix.matrix().map(point)
    }

    /// The tile of a padded point: in each row of the band the number of the row's tile, which is the place there over
    /// the row's size, rounded down. In the leading rows it is 0.
    pub fn tile_of(&self, point: &[i64; D]) -> [i128; D]
        requires { D < 7 }
        ensures { result ≡ wide_tile self.now point.now }
    {
        let place = self.place_of(point);
        let mut tile = [0; D];
        for row in self.seq..D {
            tile[row] = floor(place[row], self.size[row]);
        }
        tile
    }

    /// The key of the phase of a padded point.
    pub fn phase_of(&self, point: &[i64; D]) -> Key<D>
        requires { D < 7 }
        ensures lead { result.lead ≡ wide_lead self.now point.now }
        ensures wave { result.wave ≡ wave self.now point.now }
    {
        let place = self.place_of(point);
        Key {
            lead: self.lead_at(&place),
            wave: self.wave_at(&place),
        }
    }

    /// The leading numbers of a place, with zeros for the band.
    fn lead_at(&self, numbers: &[i128; D]) -> [i128; D]
        ensures { (p : List ℤ) → numbers.now ≡ place self.now p → result ≡ wide_lead self.now p }
    {
        let mut lead = [0; D];
        for row in 0..self.seq {
            lead[row] = numbers[row];
        }
        lead
    }

    /// The sum of the tile numbers of the band's wave rows at a place.
    fn wave_at(&self, numbers: &[i128; D]) -> i128
        requires few { D < 7 }
        requires small { All (λ number. unsigned_abs number < 2 ^ 106) numbers.now }
        ensures { (p : List ℤ) → numbers.now ≡ place self.now p → result ≡ wave self.now p }
    {
        let mut wave = 0;
        for row in self.seq..D {
            wave += share(self.parallel[row], numbers[row], self.size[row]);
        }
        wave
    }
}

/// What a row of the band adds to the wave.
fn share(is_parallel: bool, number: i128, size: u32) -> i128
    requires { 0 < size }
    ensures value { result ≡ (if is_parallel then pos 0 else int_div_euclid number (pos size)) }
    ensures size { unsigned_abs result ≤ unsigned_abs number }
{
    if is_parallel { 0 } else { floor(number, size) }
}

/// The quotient rounded down, which is no greater in size than the number. A number nearly always fits 64 bits, where
/// division takes a fraction of the time that it takes over 128.
fn floor(number: i128, size: u32) -> i128
    requires { 0 < size }
    ensures value { result ≡ int_div_euclid number (pos size) }
    ensures size { unsigned_abs result ≤ unsigned_abs number }
{
    match i64::try_from(number) {
        Ok(short) => i128::from(short.div_euclid(i64::from(size))),
        Err(_) => affine::row::floor(number, i128::from(size)),
    }
}
