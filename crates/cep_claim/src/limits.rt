//! The limits of files of claims. All of them are this profile's.

/// The most bytes of a file of claims.
pub const MOST_CLAIMS: usize = 1_048_576;

/// The greatest distance of a factor from 0.
pub const MOST_FACTOR: i64 = 1_000_000;
