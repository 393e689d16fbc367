//! Matching from scratch: the plain matcher of Ceptre's rules, which at each step looks at the whole
//! state again.
//!
//! A rule is matched premise by premise, in written order. For each premise the entries of the state
//! that have its predicate, and begin as it does so far as its variables have values, are tried, one
//! after another, and each that meets it is followed before the next. No entry is taken more often than
//! it has copies, but for facts, one copy of which meets any number of premises. Then the backward
//! premises complete the match. What was found of a rule is sorted, and put after what its group's
//! rules before it have.
#![tactic(auto)]

mod candidates;
mod first;
mod groups;
mod partial;
mod scratch;
mod search;

pub use first::applies_any;
pub use scratch::Scratch;
