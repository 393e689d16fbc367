//! How claims are written: the words of their lines, the weights that they state, and the numbers of
//! the names in them.
//!
//! A line names a claim, and a sum of parts by the names of linear predicates; a weight has the
//! parts by the numbers of these. `specs/` says how a line is written, and which parts are these by
//! numbers.
#![tactic(auto)]

mod fault;
pub mod limits;
mod numbering;
mod weight;
mod words;
mod writing;
mod written;

pub use fault::KeepFault;
pub use numbering::{are_apart, are_not_negative, linear_names, numbered};
pub use weight::{Claim, Part, Weight, WeightParts, Weights};
pub use words::says_nothing;
pub use writing::written_as;
pub use written::{NamedPart, NamedParts, Written};
