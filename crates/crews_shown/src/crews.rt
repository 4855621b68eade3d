//! The crews under which a case is run.

use crew::{Crew, Gate, Handed, LineCrew, OpenGate, ScriptCrew, ThreadCrew, Way};
use std::alloc::{AllocError, Global};
use std::thread::Threads;

/// How the workers of a phase get their turns: one worker after another, on threads behind an entrance, or by a list of
/// workers that is gone through so many times.
#[derive(Clone, Copy)]
pub enum Kind {
    InLine,
    OnThreads(Entrance),
    ByList(Order, u32),
}

/// A gate that holds nobody. Where it is open the caller begins, and threads are started only where the work is worth
/// it; a threshold says that somebody may be held, so that each worker of each phase begins on a thread.
#[derive(Clone, Copy)]
pub enum Entrance {
    Open,
    Threshold,
}

impl Gate for Entrance {
    fn pass(&self, _worker: u32) {}

    fn holds(&self) -> bool {
        match self {
            Entrance::Open => false,
            Entrance::Threshold => true,
        }
    }
}

/// An order in which workers get single turns.
#[derive(Clone, Copy)]
pub enum Order {
    Rising,
    Falling,
    Mixed,
    ThirdFirst,
}

impl Order {
    /// The workers, from 0. A turn is one claim of a tile or one instance, and each worker tries the tiles from the
    /// first on. So in `ThirdFirst` worker 0 claims the first tile, worker 1 tries it and claims the second, and worker
    /// 2 tries both, claims the third, and follows up to three of its instances before any other follows one. Where the
    /// turns of a chunk from 36 on are in tiles of 8, the third has those from 48 on, so turn 50 is followed before
    /// turn 45 is.
    pub fn workers(self) -> &'static [u32] {
        match self {
            Order::Rising => &[0, 1, 2, 3],
            Order::Falling => &[3, 2, 1, 0],
            Order::Mixed => &[1, 3, 0, 2],
            Order::ThirdFirst => &[0, 1, 1, 2, 2, 2, 2, 2, 2],
        }
    }
}

impl Kind {
    /// Its name.
    pub fn name(self, alloc: Global) -> Result<String, AllocError> {
        match self {
            Kind::InLine => String::from_str(alloc, "in line"),
            Kind::OnThreads(Entrance::Open) => String::from_str(alloc, "threads"),
            Kind::OnThreads(Entrance::Threshold) => String::from_str(alloc, "threads at once"),
            Kind::ByList(order, times) => list_name(alloc, order, times),
        }
    }
}

/// The name of a list that is gone through so many times.
fn list_name(alloc: Global, order: Order, times: u32) -> Result<String, AllocError> {
    let mut name = String::from_str(alloc, "turns")?;
    for worker in order.workers() {
        name.push_str(format!(in alloc; " {worker}")?.as_str())?;
    }
    if times > 1 {
        name.push_str(format!(in alloc; ", {times} times")?.as_str())?;
    }
    Ok(name)
}

/// The turns of a list that is gone through so many times.
fn turns(alloc: Global, order: Order, times: u32) -> Result<Vec<u32>, AllocError> {
    let mut turns = Vec::new(alloc);
    for _ in 0..times {
        turns.extend_from_slice(order.workers())?;
    }
    Ok(turns)
}

/// One of the crews.
#[derive(Drop)]
enum Inner<R> {
    Line(LineCrew<R>),
    Threads(ThreadCrew<R, Entrance>),
    Script(ScriptCrew<R>),
}

/// The same way, behind this entrance where it has a gate.
fn behind<'a, R>(entrance: &'a Entrance, way: Way<'a, R, OpenGate>) -> Way<'a, R, Entrance> {
    match way {
        Way::Line => Way::Line,
        Way::Script(order) => Way::Script(order),
        Way::Beside(rt, _) => Way::Beside(rt, entrance),
    }
}

/// A crew that runs its jobs as one of the others does, and whose list can be looked at. Those that have no gate of
/// their own have an open entrance.
#[derive(Drop)]
pub struct ShownCrew<R> {
    inner: Inner<R>,
    entrance: Entrance,
    list: Vec<Handed>,
}

impl<R: Threads + Sync + Drop> ShownCrew<R> {
    /// A crew of this kind to which nothing was handed.
    pub fn new(rt: R, alloc: Global, kind: Kind) -> Result<ShownCrew<R>, AllocError> {
        let inner = match kind {
            Kind::InLine => Inner::Line(LineCrew::new(&rt, alloc)),
            Kind::OnThreads(entrance) => Inner::Threads(ThreadCrew::new(rt, alloc, entrance)),
            Kind::ByList(order, times) => {
                Inner::Script(ScriptCrew::new(&rt, alloc, turns(alloc, order, times)?))
            }
        };
        Ok(ShownCrew {
            inner,
            entrance: Entrance::Open,
            list: Vec::new(alloc),
        })
    }

    /// What was handed to it.
    pub fn into_list(self) -> Vec<Handed> {
        self.list
    }
}

impl<R: Threads + Sync> Crew for ShownCrew<R> {
    type Rt = R;

    type Pass = Entrance;

    ghost use Rattle.std.specs.Prelude.{vec_capacity, vec_len, ◌-◌};

    ghost handed = { λ s. s.list.items };

    ghost spare = { λ s. vec_capacity s.list - vec_len s.list };

    fn reserve(&mut self, phases: u64) -> Result<(), AllocError> {
        let Ok(more) = usize::try_from(phases) else {
            return Err(AllocError);
        };
        self.list.reserve(more)
    }

    fn way(&self) -> Way<'_, R, Entrance> {
        match &self.inner {
            Inner::Line(crew) => behind(&self.entrance, crew.way()),
            Inner::Threads(crew) => crew.way(),
            Inner::Script(crew) => behind(&self.entrance, crew.way()),
        }
    }

    fn note(&mut self, entry: Handed) {
        self.list.push_reserved(entry);
    }
}
