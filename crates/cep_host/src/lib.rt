//! The console and the shelf of a process: its standard input and output, and the files of the system.
#![tactic(auto)]

mod file_shelf;
mod std_console;

pub use file_shelf::FileShelf;
pub use std_console::StdConsole;
