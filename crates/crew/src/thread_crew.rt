//! A crew that runs its jobs beside each other.
ghost use Rattle.std.specs.Prelude.{◌≡◌, true, [], vec_capacity, vec_len, ◌-◌};
ghost use Rattle.crew.specs.Ways.{runs_beside};

use crate::handed::{Crew, Handed, Way};
use crate::jobs::Gate;
use std::alloc::{AllocError, Global};
use std::thread::Threads;

/// A crew that runs its jobs beside each other, behind a gate that each passes before its first turn. Where the gate
/// holds none, the caller begins with the jobs and may finish them all; what it leaves, and jobs that may be held, run
/// on threads. Where a thread can't be started the caller does that work.
#[derive(Drop)]
pub struct ThreadCrew<R, G> {
    rt: R,
    gate: G,
    list: Vec<Handed>,
}

impl<R: Threads + Sync, G: Gate> ThreadCrew<R, G> {
    /// A crew to which nothing was handed, with room for no entry. Takes no memory.
    pub fn new(rt: R, alloc: Global, gate: G) -> ThreadCrew<R, G>
        ensures handed { result.list.items ≡ [] }
        ensures spare { vec_capacity result.list ≡ 0 }
    {
        ThreadCrew {
            rt,
            gate,
            list: Vec::new(alloc),
        }
    }
}

impl<R: Threads + Sync, G: Gate> Crew for ThreadCrew<R, G> {
    type Rt = R;

    type Pass = G;

    ghost use Rattle.std.specs.Prelude.{vec_capacity, vec_len, ◌-◌};

    ghost handed = { λ s. s.list.items };

    ghost spare = { λ s. vec_capacity s.list - vec_len s.list };

    fn reserve(&mut self, phases: u64) -> Result<(), AllocError> {
        let Ok(more) = usize::try_from(phases) else {
            return Err(AllocError);
        };
        self.list.reserve(more)
    }

    fn way(&self) -> Way<'_, R, G>
        ensures beside { runs_beside result ≡ true }
    {
        Way::Beside(&self.rt, &self.gate)
    }

    fn note(&mut self, entry: Handed) {
        self.list.push_reserved(entry);
    }
}
