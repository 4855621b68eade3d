//! A crew that gives single turns by a list.
ghost use Rattle.std.specs.Prelude.{◌≡◌, Some, [], vec_capacity, vec_len, ◌-◌};
ghost use Rattle.crew.specs.Ways.{order_of};

use crate::handed::{Crew, Handed, Way};
use crate::jobs::OpenGate;
use std::alloc::{AllocError, Global};
use std::marker::PhantomData;
use std::thread::Threads;

/// A crew that gives turns to jobs by a list, each number modulo the number of jobs, where a job with nothing left is
/// passed over, and then runs what is left in order. Each call on it returns.
#[derive(Drop)]
pub struct ScriptCrew<R> {
    list: Vec<Handed>,
    order: Vec<u32>,
    runtime: PhantomData<R>,
}

impl<R: Threads + Sync> ScriptCrew<R> {
    /// A crew to which nothing was handed, with room for no entry, and with this list. Only the runtime's type is used.
    /// Takes no memory.
    pub fn new(_rt: &R, alloc: Global, order: Vec<u32>) -> ScriptCrew<R>
        ensures handed { result.list.items ≡ [] }
        ensures spare { vec_capacity result.list ≡ 0 }
        ensures order { result.order ≡ order }
    {
        ScriptCrew {
            list: Vec::new(alloc),
            order,
            runtime: PhantomData,
        }
    }
}

impl<R: Threads + Sync> Crew for ScriptCrew<R> {
    type Rt = R;

    type Pass = OpenGate;

    ghost use Rattle.std.specs.Prelude.{vec_capacity, vec_len, ◌-◌};

    ghost handed = { λ s. s.list.items };

    ghost spare = { λ s. vec_capacity s.list - vec_len s.list };

    fn reserve(&mut self, phases: u64) -> Result<(), AllocError> {
        let Ok(more) = usize::try_from(phases) else {
            return Err(AllocError);
        };
        self.list.reserve(more)
    }

    fn way(&self) -> Way<'_, R, OpenGate>
        ensures by_order { order_of result ≡ Some self.now.order.items }
    {
        Way::Script(self.order.as_slice())
    }

    fn note(&mut self, entry: Handed) {
        self.list.push_reserved(entry);
    }
}
