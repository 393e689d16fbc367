//! The texts of cases: how a file of cases spells them and says changes of them, and what is told of a case.
#![tactic(auto)]

mod bodies;
mod changes;
mod draft;
mod sections;
mod series;
mod telling;
mod texts;

pub use bodies::number_of;
pub use draft::{Draft, NO_MEMORY};
pub use sections::Section;
pub use series::Series;
pub use telling::{Name, Outcome, tell};
pub use texts::Texts;
