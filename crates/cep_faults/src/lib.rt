//! What is wrong with the names of a text: the first of all faults.
#![tactic(auto)]

mod atoms;
mod checking;
mod facts;
mod limits;
mod rules;
mod traces;
mod uses;

pub use checking::name_fault;
