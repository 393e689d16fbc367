//! Dialogues of several players, in rounds.
//!
//! Where a stage is interactive and its own rules are asked, all players choose at once, and what
//! they chose is a round. All else goes as for one player. `specs/` says what such a run and its
//! dialogue are, and `laws` that one is there whatever is typed, that it is one but for derivations,
//! and that what is written of it has a legal log.
#![tactic(auto)]

mod acting;
mod blocked;
mod choices;
mod dialogue;
pub mod laws;
mod round;

pub use dialogue::play_in_rounds;
