//! Where the bytes come from and where they go.
//!
//! The layer is the program's edge to the outside: a source gives bytes, a sink takes them, and each
//! counts its faults. It stands on std alone (and on `thiserror` for two texts). A source means the
//! bytes that it has left, and a sink the bytes that it holds, where it tells them; a fault is answered
//! only where the object's own count rose, so no caller and no body here can claim one.
//!
//! The layer above takes from it that `read_all` gives the first bytes that were left, up to a limit,
//! and that `write_all` puts all bytes or, after a fault, a front of them.
#![tactic(auto)]

mod memory;
mod reading;
mod refusals;
mod sink;
mod source;
mod standard;
mod steps;
mod writing;

pub use memory::{MemSink, MemSource};
pub use reading::{Taken, read_all, read_all_counted};
pub use refusals::{Failed, ReadEnd};
pub use sink::Sink;
pub use source::Source;
pub use standard::{StdSink, StdSource};
pub use steps::Steps;
pub use writing::{write_all, write_all_counted};

#[cfg(test)]
mod tests;
