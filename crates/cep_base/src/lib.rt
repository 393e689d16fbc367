//! What every other crate stands on: lists, stacks and tables of names, the limits, places in a text,
//! byte text, a counter of steps, and the outside of the program as two traits, a console and a
//! shelf of files.
#![tactic(auto)]

mod console;
mod faults;
mod first_names;
mod kind;
pub mod limits;
mod list;
mod name;
mod place;
mod reading;
mod shelf;
mod stack;
mod steps;
mod text;

pub use console::{Console, ConsoleFault, Event};
pub use faults::FaultCount;
pub use first_names::FirstNames;
pub use kind::PredKind;
pub use list::List;
pub use name::Name;
pub use place::Pos;
pub use reading::{decimal, strip};
pub use shelf::{Shelf, ShelfFault};
pub use stack::Stack;
pub use steps::Steps;
pub use text::Text;
