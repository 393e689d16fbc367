use thiserror::Error;

/// Why bytes are no transcript: the first line that does not fit, counted from 1. The grammar is
/// this profile's.
#[derive(Clone, Copy, Debug, PartialEq, Eq, Error)]
pub enum LogFault {
    /// The line does not fit, or the transcript stops before it within its header or a step.
    #[error("line {line} does not fit")]
    Line { line: u32 },
    /// A step of a rule that the program has not got.
    #[error("line {line} names no rule")]
    NoRule { line: u32 },
}
