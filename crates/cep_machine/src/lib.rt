//! The stage machine of Ceptre: what stands between a matcher and a dialogue.
//!
//! A configuration is a stage, a state and how many turns are done, with the matcher of that state.
//! It says which group of rules is asked, and does a step by one of its offers, or says which limit
//! the step would pass. What a step does to a state is what `cep_step` says.
#![tactic(auto)]

mod asking;
mod beginning;
mod config;
mod going;
mod stepped;
mod stepping;
mod weighing;

pub use config::Config;
pub use stepped::Stepped;
