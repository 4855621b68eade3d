//! Where counters come first among samples: the index in which an earlier sample is found by search.

ghost use Rattle.std.specs.Prelude.{◌<◌, length, IfOk};
ghost use Rattle.line_fit.specs.Firsts.{IsIndex};

use crate::sample::Sample;
use std::alloc::{AllocError, Global};
use std::collections::BTreeMap;

/// The index of these samples.
pub fn firsts<const D: usize>(
    alloc: Global,
    samples: &[Sample<D>],
) -> Result<BTreeMap<[i64; D], usize>, AllocError>
    requires { D < 7 }
    ensures { IfOk result (λ index. IsIndex samples.now (length samples.now) index) }
{
    let mut index = BTreeMap::new(alloc);
    for (place, sample) in samples.iter().enumerate() {
        if index.get(&sample.at).is_none() {
            index.insert(sample.at, place)?;
        }
    }
    Ok(index)
}
