//! Weights of states: what a file of claims says of them, what rules do to them, and the first rule
//! that breaks a claim.
//!
//! A claim gives factors to linear predicates. The weight of a state adds them over its atoms, copy
//! by copy, and a rule takes those of the premises that it uses up and adds those of its right
//! atoms. So the rules alone say what becomes of the weight in every run. `specs/` says what a line
//! says, what a claim wants and what it says of runs. No rule needs to apply anywhere. How a line is
//! written stands in `cep_claim`.
#![tactic(auto)]

mod against;
mod claims;
mod judging;
pub mod laws;
mod reading;

pub use against::Against;
pub use judging::{judge, start_weight};
pub use reading::read_weights;
