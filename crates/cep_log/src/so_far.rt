use crate::log::{Log, LogEnd, LogMid, LogStep};
use cep_lines::Version;

/// What a prefix of a transcript's lines says, by what may stand next.
#[derive(Drop)]
pub enum SoFar {
    /// Nothing yet: the version is next.
    Nothing,
    /// The version: the height is next.
    Begun(Version),
    /// The height: the stage is next.
    Height { version: Version, height: u32 },
    /// A log without an end, all of whose steps are whole: a step or the end is next, or, where
    /// there is no step, another line of the start listing.
    Whole(Log),
    /// Such a log, and after it a step that lacks derivations or its stage: one of these is next.
    Within(Log, LogStep),
    /// Such a log, and after it a step that lacks its listing alone: the first line of that is next.
    Unlisted(Log, LogStep),
    /// Such a log, and after it a step with its listing: another line of that, a step or the end is
    /// next.
    Listed(Log, LogStep, LogMid),
    /// Such a log, and its end: another line of the last listing is next.
    Ended(Log, LogEnd),
}
