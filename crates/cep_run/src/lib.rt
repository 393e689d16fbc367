//! Runs: turn by turn the offers of a stage are written, one of them is chosen, and its step is done,
//! over any console and any matcher. What is said of a run is its dialogue, which the laws of this
//! crate tell about: there is one, what is typed determines it, its turns are steps of the machine,
//! and what is written of it is a legal transcript. It knows no files, no words and no statuses.
#![tactic(auto)]

pub mod choice;
pub mod copying;
pub mod deciding;
pub mod dialogue;
pub mod laws;
mod proving;
mod settings;
mod tally;
pub mod turn;

pub use dialogue::play;
pub use settings::Settings;
pub use tally::Tally;
