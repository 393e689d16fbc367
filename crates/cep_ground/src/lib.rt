//! Which text is which program, and what is wrong with the others.
#![tactic(auto)]

mod accepting;
pub mod laws;
mod length;
mod places;
mod refusals;
mod sealing;

pub use accepting::accept;
pub use length::too_long;
