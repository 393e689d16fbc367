//! Who caused what in a transcript, its lawful reorderings, and logs renewed.
//!
//! The copies that a state is made of are tokens. A step uses tokens, removes some of them and makes
//! others, and by them it rests on earlier steps. Each order of the steps that respects this leads
//! to the same last state, if the states on the way fit: `specs/` says what such an order is, and
//! `laws` that it is so. The written order is one of them: a log that is done in it is renewed.
#![tactic(auto)]

mod ahead;
mod ending;
mod going;
pub mod laws;
mod renewing;
mod reordered;
mod reordering;
mod walking;

pub use renewing::renew;
pub use reordered::Reordered;
pub use reordering::again;
