//! The checker of transcripts: whether a log is legal for a program, and if not, the first cause.
//!
//! The steps of the log are done one after another, on one state that is edited in place. The
//! offers of a group are looked for only where the log claims that there is none: at a rule that
//! leaves its stage, and at an end that says `quiet`. They are matched from scratch, so that the
//! checker stands on nothing that keeps matches.
#![tactic(auto)]

mod cause;
mod checking;
mod counts;
mod ending;
pub mod laws;
mod needed;
mod premises;
mod step;
mod telling;

pub use cause::{Cause, Verdict};
pub use checking::check;
pub use telling::{put_fault, put_verdict};
