//! Blocks and loop heads, run in one context.
//!
//! A `Run` has all that a run works on: the scalars, the locals of the block, the memory behind a port,
//! the steps that are left, and a watch. A port may verify each address against what is expected of it; a
//! watch is shown what an instance does: that it is due, its scalars, each address before the port is
//! asked, and what a head yields. `Run::block` runs an instance of a block, `Run::bounds` and
//! `Run::condition` evaluate the head of a `for` and of a `while`, each at a `Site`. Over every port and
//! under every watch they give the trace that `nest_lang` defines, cut where the steps that are left end.
//! Where one is cut short the run keeps why, so that a result is one word.
//!
//! `NestCode::new` compiles a nest to register code, and `Run::block_by`, `Run::bounds_by` and `Run::condition_by`
//! run by it where there is some, with the same clauses.
//!
//! The crate stands on `nest_lang` and `plain_lemmas`. The layers above run loops and whole nests, each over a
//! port of its own; `MemoryPort` and `Blind` are the plain port and the watch that keeps nothing. `laws`
//! has what the layers that verify addresses rest on.
#![tactic(auto)]

mod code;
mod coded;
mod compile;
mod context;
mod expression;
mod halt;
mod head;
pub mod laws;
mod memory;
mod nest_code;
mod port;
mod site;
mod statement;
mod watch;

pub use code::{BlockCode, BoundsCode, Registers, ValueCode};
pub use compile::{block_code, value_code};
pub use context::Run;
pub use halt::{Cut, Halt, Halted};
pub use head::Bounds;
pub use memory::MemoryPort;
pub use nest_code::{HeadCode, LoopCode, NestCode};
pub use nest_lang::{Seen, Stop, value_of_turn};
pub use port::Port;
pub use site::{Places, Site};
pub use watch::{Blind, Watch};
