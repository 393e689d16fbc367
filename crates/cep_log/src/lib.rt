//! The transcript of a played run: its content as a log, which logs are legal, and their laws. It
//! reads nothing.
#![tactic(auto)]

mod fault;
pub mod laws;
mod listing;
mod log;
mod proofs;
mod so_far;

pub use fault::LogFault;
pub use listing::{Have, Haves};
pub use log::{Log, LogEnd, LogMid, LogStep, LogSteps};
pub use proofs::Proofs;
pub use so_far::SoFar;
