//! A crew that runs its jobs one after another.
ghost use Rattle.std.specs.Prelude.{◌≡◌, [], vec_capacity, vec_len, ◌-◌};
ghost use Rattle.crew.specs.declared.handed.Way.TheVariants.{Line};

use crate::handed::{Crew, Handed, Way};
use crate::jobs::OpenGate;
use std::alloc::{AllocError, Global};
use std::marker::PhantomData;
use std::thread::Threads;

/// A crew that runs its jobs one after another, in their order. Each call on it returns.
#[derive(Drop)]
pub struct LineCrew<R> {
    list: Vec<Handed>,
    runtime: PhantomData<R>,
}

impl<R: Threads + Sync> LineCrew<R> {
    /// A crew to which nothing was handed, with room for no entry. Only the runtime's type is used. Takes no memory.
    pub fn new(_rt: &R, alloc: Global) -> LineCrew<R>
        ensures handed { result.list.items ≡ [] }
        ensures spare { vec_capacity result.list ≡ 0 }
    {
        LineCrew {
            list: Vec::new(alloc),
            runtime: PhantomData,
        }
    }
}

impl<R: Threads + Sync> Crew for LineCrew<R> {
    type Rt = R;

    type Pass = OpenGate;

    ghost use Rattle.std.specs.Prelude.{vec_capacity, vec_len, ◌-◌};

    ghost handed = { λ s. s.list.items };

    ghost spare = { λ s. vec_capacity s.list - vec_len s.list };

    fn reserve(&mut self, phases: u64) -> Result<(), AllocError> {
        let Ok(more) = usize::try_from(phases) else {
            return Err(AllocError);
        };
        self.list.reserve(more)
    }

    fn way(&self) -> Way<'_, R, OpenGate>
        ensures in_line { result ≡ Line }
    {
        Way::Line
    }

    fn note(&mut self, entry: Handed) {
        self.list.push_reserved(entry);
    }
}
