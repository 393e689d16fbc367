//! The whole command over any console and shelf: reads a program's text, plays it with a person, or
//! with several in rounds, or examines a second file against it, or runs a generated world, and
//! answers the status that the process ends with. A module for each kind of command, and a file of
//! definitions for what is due of it; what is reported of files stands in `cep_examine`.
#![tactic(auto)]

mod command;
mod dead_rules;
mod examine;
pub mod laws;
mod play;
mod reply;
mod settings;
mod silence;
mod summary;
mod world;

pub use command::ceptre;
