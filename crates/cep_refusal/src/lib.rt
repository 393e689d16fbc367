//! Why a text is refused: the reasons, faults at their places and their order, and how a fault is
//! told.
#![tactic(auto)]

mod fault;
mod first;
mod reason;
mod refusal;

pub use fault::Fault;
pub use first::FirstFault;
pub use reason::Reason;
pub use refusal::Refusal;
