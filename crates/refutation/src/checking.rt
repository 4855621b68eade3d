//! The check of a proof, which adds rows and eliminates nothing.

ghost use Rattle.std.specs.Prelude.{◌≡◌, ◌≤◌, ◌<◌, ◌+◌, ◌^◌, ◌↔◌, true, false, length, IfOk};
ghost use Rattle.std.specs.List.{All};
ghost use Rattle.fourier_motzkin.specs.RowSets.{IsWithin, is_false};
ghost use Rattle.refutation.specs.Refutations.{HasFactors, IsRefutation, names_rows, names_wide, row_at, sum_of};
ghost use Rattle.refutation.specs.Checks.{checked, flaw};
ghost use Rattle.refutation.specs.declared.proofs_by_adding.Checked.TheVariants as found;

use crate::adding::{is_wide, sum};
use crate::proofs_by_adding::{Add, Checked, Refutation, Why};
use crate::tidying::tidied_rows;
use affine::Row;
use fourier_motzkin::elimination::is_false;
use std::alloc::{AllocError, Global};

/// Whether a proof is a refutation of some rows, with numbers of at most 2^126 in size, and otherwise why not: the first
/// faulty add decides, by a number that is no row yet or else by a wide row, and without such an add it is the last row.
/// Factors are those of a refutation, and there are fewer than 2^32 adds.
pub fn check_rows(alloc: Global, rows: &[Row], proof: &Refutation) -> Result<Checked, AllocError>
    requires within { All (IsWithin (2 ^ 126)) rows.now }
    requires factors { All HasFactors proof.now.adds }
    requires few { length proof.now.adds < 2 ^ 32 }
    ensures value { IfOk result (λ answer. answer ≡ checked rows.now proof.now) }
    ensures yes { IfOk result (λ answer. (answer ≡ found.Yes) ↔ IsRefutation rows.now proof.now) }
{
    let mut all = tidied_rows(alloc, rows)?;
    for (number, add) in proof.adds.iter().enumerate() {
        if let Some(why) = flaw(&all, add, number as u32) {
            return Ok(Checked::No(why));
        }
        all.push(sum_of(&all, add))?;
    }
    if ends_false(&all, proof.last) {
        Ok(Checked::Yes)
    } else {
        Ok(Checked::No(Why::Open))
    }
}

/// What is wrong with the add of a number.
fn flaw(rows: &[Row], add: &Add, number: u32) -> Option<Why>
    ensures { result ≡ flaw number rows.now add.now }
{
    let (left, right) = (add.left as usize, add.right as usize);
    if left >= rows.len() || right >= rows.len() {
        Some(Why::Index(number))
    } else if is_wide(&rows[left]) || is_wide(&rows[right]) {
        Some(Why::Wide(number))
    } else {
        None
    }
}

/// The row that an add makes.
fn sum_of(rows: &[Row], add: &Add) -> Row
    requires factors { HasFactors add.now }
    requires rows { names_rows rows.now add.now ≡ true }
    requires narrow { names_wide rows.now add.now ≡ false }
    ensures { result ≡ sum_of rows.now add.now }
{
    sum(
        add.p,
        &rows[add.left as usize],
        add.q,
        &rows[add.right as usize],
    )
}

/// Whether a number is that of a false row.
fn ends_false(rows: &[Row], last: u32) -> bool
    ensures { result ≡ is_false (row_at rows.now last) }
{
    match rows.get(last as usize) {
        Some(row) => is_false(row),
        None => false,
    }
}
