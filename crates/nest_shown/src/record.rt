//! What a watch was shown.

use block_exec::{Seen, Watch};
use nest_lang::BlockRef;
use std::alloc::{AllocError, Global};

/// Keeps what it was shown, and whether memory for it ran out.
#[derive(Drop)]
pub struct Record {
    pub seen: Vec<(Seen, i128)>,
    pub full: bool,
}

impl Record {
    pub fn new(alloc: Global) -> Record {
        Record {
            seen: Vec::new(alloc),
            full: false,
        }
    }
}

impl Watch for Record {
    ghost may = { λ old what new. Unit {0} };

    fn see(&mut self, _block: BlockRef, _counters: &[i64], what: Seen, value: i128) {
        if self.seen.push((what, value)).is_err() {
            self.full = true;
        }
    }
}

/// Writes how many things were shown, the sum of the addresses among them, and the first 24.
pub fn write_record(alloc: Global, record: &Record, text: &mut String) -> Result<(), AllocError> {
    let shown = record.seen.len();
    let sum = sum_of_addresses(&record.seen);
    text.push_str(format!(in alloc; "  shown {shown}, addresses {sum}:")?.as_str())?;
    for (what, value) in record.seen.iter().take(24) {
        text.push_str(format!(in alloc; " {what:?}={value}")?.as_str())?;
    }
    text.push_str(if record.full { " full\n" } else { "\n" })
}

/// The sum of the addresses that were shown.
fn sum_of_addresses(seen: &[(Seen, i128)]) -> i128 {
    let mut sum = 0i128;
    for (what, value) in seen {
        if let Seen::Address(_) = what {
            sum = sum.saturating_add(*value);
        }
    }
    sum
}
