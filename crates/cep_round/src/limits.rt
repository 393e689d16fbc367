//! The limits of rounds. All of them are this profile's.

/// The most players.
pub const MOST_PLAYERS: usize = 16;
