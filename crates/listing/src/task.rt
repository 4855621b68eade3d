//! What a nest is listed with.

use nest_grammar::NestUnit;
use report::Options;

/// A nest of a file with its candidates, the number of the file's scalars, and the options.
#[derive(Clone, Copy)]
pub struct Task<'a> {
    pub unit: &'a NestUnit,
    pub scalars: u8,
    pub options: Options,
}
