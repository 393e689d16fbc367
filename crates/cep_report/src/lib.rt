//! The lines that are reported of claims about weights, of dead rules, and of the graph of a
//! transcript.
#![tactic(auto)]

mod causes;
mod claims;
mod dead_rules;
mod names;

pub use causes::put_causes;
pub use claims::{put_claim, put_claim_fault};
pub use dead_rules::put_deads;
