use thiserror::Error;

/// Why bytes are no file of claims: the first line that says no claim, counted from 1. The reasons
/// and their order are this profile's.
#[derive(Clone, Copy, Debug, PartialEq, Eq, Error)]
pub enum KeepFault {
    /// The line does not have the form of a claim.
    #[error("line {line} is no claim")]
    Keep { line: u32 },
    /// A part's name is not that of a linear predicate of the program.
    #[error("line {line} names no linear predicate")]
    KeepName { line: u32 },
    /// An earlier claim has the name, or an earlier part of the line has the predicate.
    #[error("line {line} says a name twice")]
    KeepTwice { line: u32 },
    /// A claim that each rule lowers the weight has a negative factor.
    #[error("line {line} has a negative factor")]
    KeepSign { line: u32 },
}
