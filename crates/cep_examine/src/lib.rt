//! What is read from a shelf and reported at once: the program in a file or why there is none, and
//! what a second file comes to against it (a transcript that is checked, renewed, graphed or done
//! in another order, or claims about weights), or the dead rules of the program.
#![tactic(auto)]

mod again;
mod cause;
mod claims;
mod dead_rules;
mod examine;
pub mod laws;
mod loading;
mod report;

pub use dead_rules::report_dead;
pub use examine::report_second;
pub use loading::{program_in, program_of};
pub use report::{Report, Status};
