//! Choices: what a typed line chooses, and what a seed draws. Both are this profile's.
#![tactic(auto)]

mod draw;
pub mod laws;
mod reading;
mod typed;

pub use draw::Draw;
pub use reading::{Heard, Said, read_choice};
