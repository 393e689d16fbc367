//! The order that a seed gives to the steps of a transcript, by what precedes what.
//!
//! `specs/` says which step precedes which in a list of entries, when a step is ready, and which
//! order a seed gives.
#![tactic(auto)]

pub mod laws;
mod ordering;
mod ready;
mod step_cause;
mod waits;

pub use ordering::order_by;
pub use step_cause::{Numbers, StepCause, StepCauses};
