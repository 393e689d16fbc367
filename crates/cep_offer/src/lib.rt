//! Offers of a program in a state: their order, the interface of what finds them, what an edit of
//! the state gains, and whether a derivation proves an atom.
//!
//! What these words mean is said in `specs/` of `cep_rule`. The trait `Matcher` is what finds the
//! offers and goes with the state: what stands above is generic over it, and its contracts and its
//! law say all that may be used of one.
#![tactic(auto)]

mod gaining;
mod matcher;
mod order;
mod proving;

pub use gaining::{gained, gained_unless_all, is_fact};
pub use matcher::Matcher;
pub use order::order_offer;
pub use proving::{height, proves};
