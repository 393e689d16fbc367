//! Programs of Ceptre: their parts, what the parts of every program keep, and what its rules mean.
//!
//! The contracts read atoms and terms as plain trees, and lists as lists. `specs/` says which terms
//! are well typed, which instances of rules apply to a state, what the offers of a group are, what a
//! step does, which group a stage asks, and what a derivation proves; no code is named there. The
//! laws of these that other crates rest on are the contracts of the functions in `laws`.
#![tactic(auto)]

mod clause;
mod derivation;
mod instances;
pub mod laws;
mod offer;
mod parts;
mod program;
mod rule;
mod signature;
mod told;
mod values;

pub use cep_term::{AtomList, Terms};
pub use clause::{Clause, Clauses};
pub use derivation::{Derivation, Derivations};
pub use instances::instance;
pub use offer::Offer;
pub use parts::{Parts, Stage, Stages};
pub use program::Program;
pub use rule::{Premise, Premises, Rule, Rules};
pub use signature::{Con, Cons, Kinds, Names, PredDecl, Preds, Signature};
pub use told::{is_fit, same_instance};
pub use values::are_values;
