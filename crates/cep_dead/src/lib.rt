//! Rules that can never apply, whatever is played.
//!
//! A table has all that can come about, and perhaps more (`cep_reach`); so a rule that it does not
//! let pass can never apply, and the table says why. Of a rule that passes nothing is said.
//! `specs/` has why a rule is dead; no code is named there.
#![tactic(auto)]

mod dead_rule;
mod finding;
pub mod laws;

pub use dead_rule::{DeadRule, DeadWhy, Deads};
pub use finding::dead;
