//! The words of a command, and what they ask for. All forms are this profile's.
#![tactic(auto)]

pub mod laws;
mod number;
mod options;
mod request;
mod run_option;

pub use options::Options;
pub use request::{Request, Task};
pub use run_option::RunOption;
