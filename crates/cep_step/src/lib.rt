//! What one step of a program does to a state, for those who do steps and those who check them.
//!
//! A step is known from sizes alone before any atom of it is built, then by the atoms that it takes
//! and those that the state gains; only then is the state edited, in place, with its nodes counted.
//! Nothing here keeps matches or numbers of terms.
#![tactic(auto)]

mod change;
mod counting;
mod fitting;
mod laws;
mod limit;
mod measured;
mod sides;
mod size;
mod spot;
mod weighing;

pub use change::Change;
pub use fitting::fit_instance;
pub use limit::Limit;
pub use spot::Spot;
pub use weighing::Weighed;
