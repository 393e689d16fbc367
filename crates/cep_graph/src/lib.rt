//! The graph of a transcript: on which earlier steps each step rests, by the tokens that it uses,
//! removes and makes; and its steps in the order that a seed gives by that graph.
//!
//! `specs/` says which reordering that is, and `laws` that there is one.
#![tactic(auto)]

mod graph_of;
pub mod laws;
mod making;
mod seeded;
mod sorting;
mod starting;
mod taking;
mod tokens;
mod touching;
mod trace;

pub use graph_of::graph;
pub use seeded::reorder;
