//! What is accepted could have been played: for a legal transcript there is something to be typed
//! with which a run does the same. The crate is laws alone.
#![tactic(auto)]

pub mod laws;
