//! Observations, kept in at most four words each.
//!
//! A log is a list of items of two words. An item is an observation, or says that a counter changed. Each instance
//! of a run changes one counter at most of those that were observed before it, so there is about one such item for
//! each instance.

ghost use Rattle.std.specs.Prelude.{◌≡◌, ◌<◌, ◌≤◌, ◌+◌, ◌^◌, ◌+ℤ◌, ℕ, pos, [], ◌∷◌, ◌++◌, length, take, vec_len, OnOk, slice_index_or};
ghost use Rattle.std.specs.Bool.{OnTrue};
ghost use Rattle.nest_lang.specs.Traces.{Observation};
ghost use Rattle.block_exec.specs.Watches.{observed};
ghost use Rattle.profile.specs.Logs.{told_value, turned, counters_in, told, IsInStep};

use nest_lang::{BlockRef, Seen};
use std::alloc::{AllocError, Global};

/// What was shown of an instance of a block.
#[derive(Clone, Copy, Debug, PartialEq, Eq)]
pub struct Shown {
    pub block: BlockRef,
    pub what: Seen,
}

/// An observation, with the number of its counters and its value; or a counter that changed, with its place and
/// its value.
#[derive(Clone, Copy, Debug, PartialEq, Eq)]
pub struct Item {
    pub shown: Option<Shown>,
    pub level: u8,
    pub value: i64,
}

/// The items so far, and the counters after them.
#[derive(Drop)]
pub struct Log {
    pub items: Vec<Item>,
    pub counters: Vec<i64>,
}

impl Log {
    /// An empty log.
    pub fn new(alloc: Global) -> Log
        ensures { (result.items.items ≡ []) × (result.counters.items ≡ []) }
    {
        Log {
            items: Vec::new(alloc),
            counters: Vec::new(alloc),
        }
    }

    /// Keeps an observation. After an error the log is no longer in step.
    pub fn note(&mut self, shown: Shown, counters: &[i64], value: i64) -> Result<(), AllocError>
        requires { IsInStep self.old }
        ensures { OnOk result (IsInStep self.new × (told [] self.new.items.items ≡ told [] self.old.items.items ++ observed shown.block counters.now shown.what (told_value shown.what value) ∷ [])) }
    {
        let Ok(level) = u8::try_from(counters.len()) else {
            return Err(AllocError);
        };
        self.turn_to(counters)?;
        self.items.push(Item {
            shown: Some(shown),
            level,
            value,
        })?;
        Ok(())
    }

    /// Makes the counters begin with these.
    fn turn_to(&mut self, counters: &[i64]) -> Result<(), AllocError>
        requires step { IsInStep self.old }
        requires few { length counters.now < 256 }
        ensures { OnOk result (IsInStep self.new × (told [] self.new.items.items ≡ told [] self.old.items.items) × (take (length counters.now) self.new.counters.items ≡ counters.now)) }
    {
        for place in 0..counters.len() {
            if !holds(&self.counters, place, counters[place]) {
                self.turn(place as u8, counters[place])?;
            }
        }
        Ok(())
    }

    /// Changes the counter at a place, which is at most one past the last.
    fn turn(&mut self, place: u8, counter: i64) -> Result<(), AllocError>
        requires step { IsInStep self.old }
        ensures { OnOk result (IsInStep self.new × (told [] self.new.items.items ≡ told [] self.old.items.items) × (self.new.counters.items ≡ turned place counter self.old.counters.items)) }
    {
        self.items.push(Item {
            shown: None,
            level: place,
            value: counter,
        })?;
        self.counters.truncate(place as usize);
        self.counters.push(counter)?;
        Ok(())
    }
}

/// Whether this counter stands at a place.
fn holds(counters: &[i64], place: usize, counter: i64) -> bool
    ensures { OnTrue result ((place < length counters.now) × (slice_index_or counters.now place (pos 0) ≡ counter)) }
{
    match counters.get(place) {
        Some(kept) => *kept == counter,
        None => false,
    }
}
