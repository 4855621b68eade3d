//! The verdict on a system of rows, and the rows before each elimination.

ghost use Rattle.std.specs.Prelude.{◌≡◌, ℕ, ℤ, List, ◌<◌, ◌≤◌, ◌^◌, [], length, IfOk, slice_index_or};
ghost use Rattle.std.specs.List.{All};
ghost use Rattle.affine.specs.Rows.{Meets};
ghost use Rattle.fourier_motzkin.specs.RowSets.{IsWithin};
ghost use Rattle.fourier_motzkin.specs.Elimination.{AllOver, IsSound};
ghost use Rattle.fourier_motzkin.specs.Verdicts.{bounds_of, next, ruled, standing, verdict_of};

use crate::elimination::{Eliminated, eliminate, tidy};
use crate::row_set::RowSet;
use crate::scans::Scan;
use affine::Row;
use std::alloc::{AllocError, Global};

/// What elimination says of a system.
#[derive(Clone, Copy, Debug, PartialEq, Eq)]
pub enum Ruling {
    /// No whole-number point meets all rows.
    Empty,
    /// Nothing false was found. It doesn't say that a whole-number point exists.
    Maybe,
    /// A set had a number above 2^62 in size or more than 512 rows, before anything false was found.
    Wide,
}

/// The verdict on rows over so many variables, 16 at most, with numbers of at most 2^100 in size
/// (docs/DEFINITIONS.md, Verdict). No rows at all give Maybe.
pub fn verdict(alloc: Global, rows: &[Row], variables: usize) -> Result<Ruling, AllocError>
    requires few { variables ≤ 16 }
    requires over { AllOver variables rows.now }
    requires within { All (IsWithin (2 ^ 100)) rows.now }
    ensures value { IfOk result (λ ruling. ruling ≡ verdict_of variables rows.now) }
    ensures empty { IfOk result (λ ruling. ruling ≡ Ruling.Empty → (point : List ℤ) → All (Meets point) rows.now → ⊥) }
{
    Ok(bounds(alloc, rows, variables)?.verdict())
}

/// The rows before each elimination, and the verdict, under the conditions of `verdict`.
pub fn bounds(alloc: Global, rows: &[Row], variables: usize) -> Result<Scan, AllocError>
    requires few { variables ≤ 16 }
    requires over { AllOver variables rows.now }
    requires within { All (IsWithin (2 ^ 100)) rows.now }
    ensures { IfOk result (λ scan. scan ≡ bounds_of variables rows.now) }
{
    let mut levels = Vec::new(alloc);
    let mut said = tidy(alloc, rows)?;
    for variable in (0..variables).rev() {
        let (level, next) = step(alloc, said, variable)?;
        levels.push(level)?;
        said = next;
    }
    levels.reverse();
    Ok(Scan::new(levels, said.ruling()))
}

/// The rows that stand, and what is said once the variable is eliminated too.
fn step(
    alloc: Global,
    said: Eliminated,
    variable: usize,
) -> Result<(RowSet, Eliminated), AllocError>
    requires { (n : ℕ) × (variable < n) × IsSound n said }
    ensures { IfOk result (λ pair. pair ≡ (standing said, next variable said)) }
{
    match said {
        Eliminated::Rows(rows) => {
            let next = eliminate(alloc, rows.as_slice(), variable)?;
            Ok((rows, next))
        },
        Eliminated::False => Ok((RowSet::from_rows(Vec::new(alloc)), Eliminated::False)),
        Eliminated::Wide => Ok((RowSet::from_rows(Vec::new(alloc)), Eliminated::Wide)),
    }
}

impl Eliminated {
    /// What is ruled where this is said last.
    fn ruling(&self) -> Ruling
        ensures { result ≡ ruled self.now }
    {
        match self {
            Eliminated::False => Ruling::Empty,
            Eliminated::Wide => Ruling::Wide,
            Eliminated::Rows(_) => Ruling::Maybe,
        }
    }
}
