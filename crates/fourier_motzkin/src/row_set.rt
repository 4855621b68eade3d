//! A tidied set of rows.

ghost use Rattle.std.specs.Prelude.{◌≡◌, List};
ghost use Rattle.affine.specs.declared.row.Row.{Row};

use affine::Row;
use std::marker::Model;

/// A set of rows, kept as a list that rises by the coefficients.
#[derive(Debug, Drop)]
pub struct RowSet {
    rows: Vec<Row>,
}

impl Model for RowSet {
    ghost Value = { List Row };

    ghost view = { λ set. set.rows.items };
}

impl RowSet {
    /// The set that holds these rows.
    pub fn from_rows(rows: Vec<Row>) -> RowSet
        ensures { result ≡ rows.items }
    {
        RowSet { rows }
    }

    /// Its rows.
    pub fn as_slice(&self) -> &[Row]
        ensures { result.now ≡ self.now }
    {
        self.rows.as_slice()
    }

    /// Its rows, given away.
    pub fn into_rows(self) -> Vec<Row>
        ensures { result.items ≡ self }
    {
        self.rows
    }
}
