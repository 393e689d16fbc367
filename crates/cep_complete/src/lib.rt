//! What the answers of all backward premises of a rule complete a match to: the offers by all values
//! that keep those of the match and by which each backward premise is derivable. A matcher finds the
//! matches of the premises that a state has to meet; no state is looked at here.
//!
//! Each backward premise is asked of backward chaining, and each of its answers is followed before the
//! next. What is solved is kept in a tabling, for one match or for all matches that share it. Besides,
//! the laws of values that are found, and of the offers that each state has.
#![tactic(auto)]

mod backs;
mod completing;
pub mod laws;

pub use completing::completions;
