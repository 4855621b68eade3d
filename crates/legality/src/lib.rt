//! Legality: which schedules keep what depends on what.
//!
//! A schedule is legal for chunks of at most so many turns where no system of a prediction can be met together with a
//! row that the schedule violates: where the verdict on each trial is Empty. `judge` answers that, or the first trial
//! that refuses; `choose` the first legal one of some schedules; and `dependences` lists the systems that may be met. The
//! definitions stand in `dependence`: systems, violations and the order of the trials. `laws` has what refusals and
//! dependences name.
//!
//! The crate stands on `dependence` (systems and their violations), `transform` (schedules) and `fourier_motzkin`
//! (verdicts). The layer above judges the candidates of a nest.
#![tactic(auto)]

mod choices;
mod judging;
pub mod laws;
mod listing;
mod refusals;

pub use choices::{Choice, choose};
pub use judging::judge;
pub use listing::{Dependence, dependences};
pub use refusals::{Judged, Refusal};
