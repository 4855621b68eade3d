//! Instances of a launched chunk against a prediction, and lists of them.
//!
//! A `Task` is a chunk of turns of a nest, from a position of its outermost loop, with what is predicted of it.
//! `follow_instance` finds an instance of it in the nest, runs it from its expected scalars over a port, and compares
//! all that it shows, and its scalars at the end, with what the prediction says; `follow_list` does so with a list, one
//! instance after another, up to the first that differs. Their contracts give the follow run and the deviation of
//! `follow`, at the forecast that the prediction's table makes.
//!
//! The crate stands on `follow`, whose calls run one block or head against what is expected of it, and on `domain`,
//! which has predictions, instances and their successors. It takes no memory: a form is evaluated where its value is
//! asked for. `laws` ties its instances to the items that `follow`'s laws speak of. The layers that run tiles of instances
//! on several threads use its calls, and its definitions of forecasts and items.
#![tactic(auto)]

mod expect;
mod instance;
pub mod laws;
mod list;
mod place;
mod task;
mod verified;

pub use expect::{Foreseen, expected_interval, expected_scalar, narrowed, scalars_at};
pub use instance::follow_instance;
pub use list::follow_list;
pub use task::{Deviation, Followed, Task};
pub use verified::follow_verified;
