//! Tiles without instances, which count how often each was entered.
ghost use Rattle.std.specs.Prelude.{◌≡◌, ◌≤◌, [], length, IfOk};
ghost use Rattle.crew_shown.specs.Empties.{empties};

use domain::Instance;
use skeletons::Walk;
use std::alloc::{AllocError, Global};
use std::sync::atomic::{AtomicU64, Ordering};

/// A walk over tiles that have no instances, one for each number: a number counts how often its tile was entered, by
/// whichever worker. At most 65,536 tiles.
#[derive(Drop)]
pub struct Counted<'a> {
    entered: &'a [AtomicU64],
    ghost few: { length entered.now ≤ 65536 },
}

impl<'a> Counted<'a> {
    pub fn new(entered: &'a [AtomicU64]) -> Counted<'a>
        requires { length entered.now ≤ 65536 }
        ensures { length result.entered.now ≡ length entered.now }
    {
        Counted { entered }
    }
}

impl Walk<1> for Counted<'_> {
    ghost use Rattle.std.specs.Prelude.{[], length};
    ghost use Rattle.crew_shown.specs.Empties.{empties};

    ghost lists = { λ w. empties (length w.entered.now) };

    ghost rest = { λ _. [] };

    fn tiles(&self) -> u32 {
        self.entered.len() as u32
    }

    fn enter(&mut self, tile: u32) {
        if let Some(times) = self.entered.get(tile as usize) {
            times.fetch_add(1, Ordering::SeqCst);
        }
    }

    fn next(&mut self) -> Option<Instance<1>> {
        None
    }
}

/// So many numbers, all 0.
pub fn counters(alloc: Global, count: usize) -> Result<Vec<AtomicU64>, AllocError> {
    let mut all = Vec::new(alloc);
    for _ in 0..count {
        all.push(AtomicU64::new(0))?;
    }
    Ok(all)
}

/// How many of the numbers are 1.
pub fn once(entered: &[AtomicU64]) -> usize {
    entered
        .iter()
        .filter(|times| times.load(Ordering::SeqCst) == 1)
        .count()
}
