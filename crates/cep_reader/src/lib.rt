//! The reader of transcripts: it reads one, line by line, as a log, or says at which line it is
//! malformed.
#![tactic(auto)]

mod growing;
mod line_kinds;
mod reading;
mod words;

pub use reading::read_log;
