//! Ranges that scan the whole-number points of a system.

ghost use Rattle.std.specs.Prelude.{◌≡◌, ◌<◌, ◌≤◌, ◌^◌, ℤ, List, [], length, slice_index_or, unsigned_abs, ◌↔◌, ◌⊎◌, IsNone, IfSome};
ghost use Rattle.std.specs.List.{All};
ghost use Rattle.fourier_motzkin.specs.RowSets.{IsWithin};
ghost use Rattle.fourier_motzkin.specs.Elimination.{AllOver};
ghost use Rattle.fourier_motzkin.specs.Ranges.{Allowed, IsOpen, IsRange};
ghost use Rattle.fourier_motzkin.specs.Verdicts.{AreLevels, Bounds};

use crate::range::range_of;
use crate::row_set::RowSet;
use crate::verdicts::Ruling;
use affine::Row;
use std::marker::Model;

/// The rows before each elimination, and the verdict.
#[derive(Debug, Drop)]
pub struct Scan {
    levels: Vec<RowSet>,
    verdict: Ruling,
}

impl Model for Scan {
    ghost Value = { Bounds };

    ghost view = { λ scan. record { levels = scan.levels.items; verdict = scan.verdict } };

    ghost invariant = { λ scan. AreLevels scan.levels.items };
}

impl Scan {
    /// The scan of these levels.
    pub(crate) fn new(levels: Vec<RowSet>, verdict: Ruling) -> Scan
        requires { AreLevels levels.items }
        ensures { result ≡ record { levels = levels.items; verdict = verdict } }
    {
        Scan { levels, verdict }
    }

    /// The verdict.
    pub fn verdict(&self) -> Ruling
        ensures { result ≡ self.now.verdict }
    {
        self.verdict
    }

    /// How many variables there are, and so how many levels.
    pub fn variables(&self) -> usize
        ensures { result ≡ length self.now.levels }
    {
        self.levels.len()
    }

    /// The rows before the elimination of variable number `level`, over the variables up to it. There are none
    /// where the verdict was there before.
    pub fn level(&self, level: usize) -> &[Row]
        requires { level < length self.now.levels }
        ensures rows { result.now ≡ slice_index_or self.now.levels level [] }
        ensures over { AllOver (length self.now.levels) result.now }
        ensures within { All (IsWithin (2 ^ 62)) result.now }
    {
        self.levels[level].as_slice()
    }

    /// The least and the greatest whole value that the rows of the level allow its variable after the given outer
    /// values, which are at most 2^60 in size. It allows all values between. None comes exactly where it allows no
    /// value, or where no row bounds the variable on one side.
    pub fn range(&self, level: usize, point: &[i64]) -> Option<(i128, i128)>
        requires level { level < length self.now.levels }
        requires outer { length point.now ≡ level }
        requires small { All (λ value. unsigned_abs value ≤ 2 ^ 60) point.now }
        ensures some { IfSome result (λ ends. IsRange (Allowed (slice_index_or self.now.levels level []) point.now) ends.0 ends.1) }
        ensures none { IsNone result ↔ (((value : ℤ) → Allowed (slice_index_or self.now.levels level []) point.now value → ⊥) ⊎ IsOpen level (slice_index_or self.now.levels level [])) }
    {
        range_of(self.level(level), level, point)
    }
}
