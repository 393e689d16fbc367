//! Ground terms and atoms that are kept once each, under numbers: equal ids are equal trees.
//!
//! A term or an atom is kept as a key, which is the number of its head and then the ids of its
//! arguments; the arguments have their ids first. So two trees are equal if and only if their keys are,
//! and one look-up of a key tells whether a tree is there.
#![tactic(auto)]

mod interning;
mod keys;
pub mod laws;
mod reading;
mod store;

pub use store::Store;
