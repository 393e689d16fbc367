//! Rounds: several players choose at once, and what they chose is done together.
//!
//! Of the offers that are chosen in a state, in order of the players, each is admitted if what it
//! needs is there beside what those admitted before it need. The admitted ones can be done one
//! after another in every order, and lead to one state. Rounds are this profile's, and so is this
//! rule; what an offer needs and gives is Ceptre's.
#![tactic(auto)]

pub mod laws;
pub mod limits;
mod place;
mod round;
mod sides;

pub use place::place_of;
pub use round::{Flags, Offers, admit, together};
