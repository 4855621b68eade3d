//! The tidied rows of a set, whatever an elimination says of them.

ghost use Rattle.std.specs.Prelude.{◌≡◌, ◌^◌, ℤ, List, [], map, IfOk, OnOk};
ghost use Rattle.std.specs.List.{All};
ghost use Rattle.std.specs.Ordering.{int_cmp};
ghost use Rattle.std.specs.Cmp.Lexicographic.{slice_cmp};
ghost use Rattle.std.specs.BTreeMap.{IsOrdered};
ghost use Rattle.affine.specs.declared.row.Row.{Row};
ghost use Rattle.fourier_motzkin.specs.RowSets.{IsWithin, is_constant, says_nothing, kept, tidied, with_row};

use affine::Row;
use arrayvec::ArrayVec;
use std::alloc::{AllocError, Global};
use std::collections::BTreeMap;
use std::marker::Model;

/// The tidied rows, by their coefficients: each made normal, without those that say nothing, and of rows with equal
/// coefficients the one with the least constant. Numbers are at most 2^126 in size.
pub(crate) fn tidied_rows(alloc: Global, rows: &[Row]) -> Result<Vec<Row>, AllocError>
    requires { All (IsWithin (2 ^ 126)) rows.now }
    ensures { IfOk result (λ set. set.items ≡ tidied rows.now) }
{
    let mut set = Tidying {
        least: BTreeMap::new(alloc),
    };
    for row in rows {
        set.add(row)?;
    }
    set.into_rows(alloc)
}

/// For each list of coefficients the least constant so far.
#[derive(Drop)]
struct Tidying {
    least: BTreeMap<ArrayVec<i128, 16>, i128>,
}

impl Model for Tidying {
    ghost Value = { List Row };

    ghost view = { λ set. map (λ entry. record { coef = entry.0; cst = entry.1 }) set.least.entries };

    ghost invariant = { λ set. IsOrdered (λ first second. slice_cmp int_cmp first.items second.items) set.least };
}

impl Tidying {
    /// Adds what a row says.
    fn add(&mut self, row: &Row) -> Result<(), AllocError>
        requires { IsWithin (2 ^ 126) row.now }
        ensures { OnOk result (self.new ≡ with_row row.now self.old) }
    {
        let row = row.normal();
        if says_nothing(&row) {
            return Ok(());
        }
        self.place(row)
    }

    /// Keeps the row, or the one with the same coefficients, where that has no greater constant.
    fn place(&mut self, row: Row) -> Result<(), AllocError>
        ensures { OnOk result (self.new ≡ kept row self.old) }
    {
        let Row { coef, cst } = row;
        if let Some(least) = self.least.get(&coef) {
            if *least <= cst {
                return Ok(());
            }
        }
        self.least.insert(coef, cst)?;
        Ok(())
    }

    /// The rows, by their coefficients.
    fn into_rows(self, alloc: Global) -> Result<Vec<Row>, AllocError>
        ensures { IfOk result (λ rows. rows.items ≡ self) }
    {
        let mut rows = Vec::new(alloc);
        for (coef, cst) in self.least {
            rows.push(Row { coef, cst })?;
        }
        Ok(rows)
    }
}

/// Whether the row has no variables and is true.
fn says_nothing(row: &Row) -> bool
    ensures { result ≡ says_nothing row.now }
{
    is_constant(row) && row.cst >= 0
}

/// Whether every coefficient is 0.
fn is_constant(row: &Row) -> bool
    ensures { result ≡ is_constant row.now }
{
    row.coef.as_slice().iter().all(|number| *number == 0)
}
