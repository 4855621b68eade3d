//! A gate at which two workers meet.

use crew::Gate;
use std::sync::atomic::{AtomicU64, Ordering};
use std::thread;

/// How often one that waits looks round for the other.
const YIELDS: u32 = 20_000_000;

/// A gate that notes each that passes, and holds it until two were noted, for at most so many yields. Those that waited
/// in vain are noted too.
#[derive(Drop)]
pub struct Meeting<'a> {
    noted: &'a AtomicU64,
    in_vain: &'a AtomicU64,
}

impl<'a> Meeting<'a> {
    /// A gate that notes in these numbers.
    pub fn new(noted: &'a AtomicU64, in_vain: &'a AtomicU64) -> Meeting<'a> {
        Meeting { noted, in_vain }
    }
}

impl Gate for Meeting<'_> {
    fn pass(&self, _worker: u32) {
        self.noted.fetch_add(1, Ordering::SeqCst);
        for _ in 0..YIELDS {
            if self.noted.load(Ordering::SeqCst) >= 2 {
                return;
            }
            thread::yield_now();
        }
        self.in_vain.fetch_add(1, Ordering::SeqCst);
    }
}
