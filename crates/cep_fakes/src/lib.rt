//! The outside of the program in memory, as tests have it: consoles and a shelf of files, of which
//! chosen calls fail.
#![tactic(auto)]

mod calls;
mod calm_console;
mod memory_console;
mod memory_shelf;

pub use calm_console::CalmConsole;
pub use memory_console::MemConsole;
pub use memory_shelf::MemShelf;
