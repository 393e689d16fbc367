//! Modes: which backward goals may leave a variable unknown, told for each predicate by the positions
//! of a goal that are known. A rule with such a premise is refused.
#![tactic(auto)]

mod bad;
mod callees;
mod grounding;
mod known;
mod marks;
mod reach;

pub use grounding::{Marks, ungrounded_premises};
