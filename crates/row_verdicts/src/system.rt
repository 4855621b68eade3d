//! Systems of rows, read from a line of numbers.

ghost use Rattle.std.specs.Prelude.{◌≡◌, ◌≤◌, ◌<◌, ◌+◌, ◌^◌, length, unsigned_abs, IfOk, IfSome};
ghost use Rattle.std.specs.List.{All};
ghost use Rattle.affine.specs.Rows.{variables};
ghost use Rattle.fourier_motzkin.specs.RowSets.{IsWithin};
ghost use Rattle.fourier_motzkin.specs.Elimination.{AllOver};

use affine::Row;
use arrayvec::ArrayVec;
use std::alloc::{AllocError, Global};

/// The most variables.
pub const MOST_VARIABLES: usize = 16;

/// The largest size of a number.
pub const LARGEST: u128 = 1 << 100;

/// Rows over so many variables.
#[derive(Debug, Drop)]
pub struct System {
    pub variables: usize,
    pub rows: Vec<Row>,
}

impl System {
    /// The system of a line: the number of variables, and then the numbers of each row, its coefficients and its
    /// constant. None where the line is not of that form, has more than 16 variables or a number above 2^100 in size.
    pub fn read(alloc: Global, line: &str) -> Result<Option<System>, AllocError>
        ensures few { IfOk result (λ found. IfSome found (λ system. system.variables ≤ 16)) }
        ensures within { IfOk result (λ found. IfSome found (λ system. All (IsWithin (2 ^ 100)) system.rows.items)) }
        ensures over { IfOk result (λ found. IfSome found (λ system. AllOver system.variables system.rows.items)) }
    {
        let Some(numbers) = numbers(alloc, line)? else {
            return Ok(None);
        };
        let Some((first, rest)) = numbers.split_first() else {
            return Ok(None);
        };
        let Ok(variables) = usize::try_from(*first) else {
            return Ok(None);
        };
        if variables > MOST_VARIABLES {
            return Ok(None);
        }
        let Some(rows) = rows(alloc, rest, variables)? else {
            return Ok(None);
        };
        Ok(Some(System { variables, rows }))
    }
}

/// The numbers of a line, or None where a word is none or is too large.
fn numbers(alloc: Global, line: &str) -> Result<Option<Vec<i128>>, AllocError>
    ensures { IfOk result (λ found. IfSome found (λ numbers. All (λ number. unsigned_abs number ≤ 2 ^ 100) numbers.items)) }
{
    let mut numbers = Vec::new(alloc);
    for word in line.split_whitespace() {
        let Ok(number) = word.parse::<i128>() else {
            return Ok(None);
        };
        if number.unsigned_abs() > LARGEST {
            return Ok(None);
        }
        numbers.push(number)?;
    }
    Ok(Some(numbers))
}

/// The rows of these numbers, or None where the last row is cut short.
fn rows(alloc: Global, numbers: &[i128], variables: usize) -> Result<Option<Vec<Row>>, AllocError>
    requires few { variables ≤ 16 }
    requires small { All (λ number. unsigned_abs number ≤ 2 ^ 100) numbers.now }
    ensures within { IfOk result (λ found. IfSome found (λ rows. All (IsWithin (2 ^ 100)) rows.items)) }
    ensures over { IfOk result (λ found. IfSome found (λ rows. AllOver variables rows.items)) }
{
    let mut rows = Vec::new(alloc);
    let mut rest = numbers;
    while rest.len() > variables {
        let (row, next) = rest.split_at(variables + 1);
        rows.push(row_of(row))?;
        rest = next;
    }
    if rest.is_empty() {
        Ok(Some(rows))
    } else {
        Ok(None)
    }
}

/// The row whose last number is the constant.
fn row_of(numbers: &[i128]) -> Row
    requires some { 0 < length numbers.now }
    requires few { length numbers.now ≤ 17 }
    requires small { All (λ number. unsigned_abs number ≤ 2 ^ 100) numbers.now }
    ensures within { IsWithin (2 ^ 100) result }
    ensures over { variables result + 1 ≡ length numbers.now }
{
    let last = numbers.len() - 1;
    let mut coef = ArrayVec::new();
    for number in &numbers[..last] {
        coef.push(*number);
    }
    Row {
        coef,
        cst: numbers[last],
    }
}
