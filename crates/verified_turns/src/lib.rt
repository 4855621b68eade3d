//! Verified turns: workers that claim tiles of a phase and follow their instances, each over its own seat.
//!
//! A `WorkerPort` is the port over a worker's seat for one instance: it compares each address with the expected
//! interval of its access before the seat is asked. A `Worker` tries the tiles of a plan in their order, claims what
//! nobody holds, and follows the instances of its walk one by one, up to the first that deviates. What is kept of it at
//! each turn, and what it is when it finished, is said as plain data, of whatever runs on words (`specs/Progress`). The
//! law of a phase (`specs/Laws`) says that what all workers leave, in whatever order and beside whatever else, is what the
//! tiles leave one after another; and that a raised flag means that these have a deviation.
//!
//! It stands on `follow_chunk` for one instance, on `skeletons` for walks, on `shared_words` for seats, and on `orders` for
//! machines of instances and the law of shares. The layers above hand workers to a crew, which gives them turns until each has finished.
#![tactic(auto)]

pub mod laws;
mod port;
mod worker;

pub use port::WorkerPort;
pub use worker::{Outcome, Worker, follow_on};
