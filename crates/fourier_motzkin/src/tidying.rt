//! Sets of rows while they are tidied.

ghost use Rattle.std.specs.Prelude.{◌≡◌, ◌^◌, ℤ, List, [], map, IsTrue, IfOk, OnOk};
ghost use Rattle.std.specs.Ordering.{int_cmp};
ghost use Rattle.std.specs.Cmp.Lexicographic.{slice_cmp};
ghost use Rattle.std.specs.BTreeMap.{IsOrdered};
ghost use Rattle.affine.specs.declared.row.Row.{Row};
ghost use Rattle.fourier_motzkin.specs.RowSets.{IsWithin, is_constant, says_nothing, kept, with_row};

use affine::Row;
use arrayvec::ArrayVec;
use std::alloc::{AllocError, Global};
use std::collections::BTreeMap;
use std::marker::Model;

/// What was told of so far: for each list of coefficients the least constant.
#[derive(Drop)]
pub struct Tidying {
    least: BTreeMap<ArrayVec<i128, 16>, i128>,
}

impl Model for Tidying {
    ghost Value = { List Row };

    ghost view = { λ set. map (λ entry. record { coef = entry.0; cst = entry.1 }) set.least.entries };

    ghost invariant = { λ set. IsOrdered (λ first second. slice_cmp int_cmp first.items second.items) set.least };
}

impl Tidying {
    /// Nothing was told of yet.
    pub fn new(alloc: Global) -> Tidying
        ensures { result ≡ [] }
    {
        Tidying {
            least: BTreeMap::new(alloc),
        }
    }

    /// Adds what a row says.
    pub fn add(&mut self, row: &Row) -> Result<(), AllocError>
        requires { IsWithin (2 ^ 126) row.now }
        ensures { OnOk result (self.new ≡ with_row row.now self.old) }
    {
        let row = row.normal();
        if says_nothing(&row) {
            return Ok(());
        }
        self.place(row)
    }

    /// Keeps the row, or the one with the same coefficients, where that has no greater constant.
    fn place(&mut self, row: Row) -> Result<(), AllocError>
        ensures { OnOk result (self.new ≡ kept row self.old) }
    {
        let Row { coef, cst } = row;
        if let Some(least) = self.least.get(&coef) {
            if *least <= cst {
                return Ok(());
            }
        }
        self.least.insert(coef, cst)?;
        Ok(())
    }

    /// The rows, by their coefficients.
    pub fn into_rows(self, alloc: Global) -> Result<Vec<Row>, AllocError>
        ensures { IfOk result (λ rows. rows.items ≡ self) }
    {
        let mut rows = Vec::new(alloc);
        for (coef, cst) in self.least {
            rows.push(Row { coef, cst })?;
        }
        Ok(rows)
    }
}

/// Whether the row has no variables and is true.
fn says_nothing(row: &Row) -> bool
    ensures { result ≡ says_nothing row.now }
{
    is_constant(row) && row.cst >= 0
}

/// Whether every coefficient is 0.
pub(crate) fn is_constant(row: &Row) -> bool
    ensures { result ≡ is_constant row.now }
{
    row.coef.as_slice().iter().all(|number| *number == 0)
}
