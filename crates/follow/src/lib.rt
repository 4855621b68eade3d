//! Instances against what is expected of them, and the laws of running them in another order.
//!
//! A forecast says what is expected of each instance of a nest: the scalars as it begins, the interval of
//! each address, the bounds of a `for`, the trips. A chunk of turns of the nest has a deviation where
//! something that it shows doesn't agree with the forecast, where it traps, or where its steps end; without
//! one it follows its prediction. A follow run takes listed instances one after another, each from its
//! expected scalars with its addresses verified.
//!
//! The crate stands on the traces of `nest_lang`, on what `block_exec` says of blocks whose addresses are
//! verified, and on `orders`, which has the laws of reordering for whatever runs on words. Its laws say
//! which lists have one follow run, and that a chunk has no deviation exactly where its instances, one
//! after another, follow from its first scalars within its steps. `VerifyingPort` refuses each address that
//! is not expected of an instance before the port below is asked; `follow_block_verified` and
//! `follow_head_verified` run one instance over it, or over another port that verifies by itself, and say exactly
//! whether it follows its prediction, and else how not. `follow_chunk`, which finds the instances of a nest, calls
//! these; the layers above, which run instances in the order of a schedule and on several threads, rest on it and on
//! the laws.
#![tactic(auto)]

mod expected;
mod head;
mod how;
pub mod laws;
mod verified;
mod verify;

pub use expected::Expected;
pub use how::{Differs, How, Turning};
pub use verified::{follow_block_verified, follow_head_verified};
pub use verify::{Interval, VerifyingPort};

#[cfg(test)]
mod tests;
