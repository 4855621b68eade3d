//! From places back to instances.

ghost use Rattle.std.specs.Prelude.{◌≡◌, ◌<◌, ◌≤◌, ℕ, ℤ, List, FitsSigned, length, map, pos};
ghost use Rattle.std.specs.Int.{w64};
ghost use Rattle.std.specs.List.{range_with_len};
ghost use Rattle.affine.specs.Inverses.{IsSquare};
ghost use Rattle.affine.specs.Matrices.{HasSmallEntries};
ghost use Rattle.domain.specs.Instances.{counter};
ghost use Rattle.domain.specs.Tables.{cut};
ghost use Rattle.skeletons.specs.Frames.{entries, transposed};

use affine::Matrix;

/// The numbers of the columns in one row.
fn entries<const D: usize>(columns: &Matrix<D>, row: usize) -> [i64; D]
    requires inside { row < D }
    requires square { IsSquare D columns.now }
    ensures { result ≡ entries columns.now row }
{
    let mut entries = [0; D];
    for column in 0..D {
        entries[column] = columns.rows[column][row];
    }
    entries
}

/// The matrix of these columns.
pub(crate) fn transposed<const D: usize>(columns: &Matrix<D>) -> Matrix<D>
    requires square { IsSquare D columns.now }
    requires small { HasSmallEntries columns.now }
    ensures { result ≡ transposed D columns.now }
{
    let mut rows = [[0; D]; D];
    for row in 0..D {
        rows[row] = entries(columns, row);
    }
    Matrix { rows }
}

/// The values as an array.
pub(crate) fn array_of<const D: usize>(values: &[i64]) -> [i64; D]
    requires { length values.now ≡ D }
    ensures { result ≡ values.now }
{
    let mut array = [0; D];
    for place in 0..D {
        array[place] = values[place];
    }
    array
}

/// The first numbers of a point, and zeros in place of the others.
pub(crate) fn counters_of<const D: usize>(point: &[i128; D], count: usize) -> [i64; D]
    requires inside { count ≤ D }
    requires fits { (k : ℕ) → FitsSigned w64 (counter point.now k) }
    ensures { result ≡ cut count point.now }
{
    let mut at = [0; D];
    for place in 0..count {
        at[place] = point[place] as i64;
    }
    at
}
