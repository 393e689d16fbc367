use thiserror::Error;

/// Why a text has no tokens: the first fault in it, with its place in bytes from the front.
#[derive(Clone, Copy, Debug, Error)]
pub enum LexFault {
    /// A byte outside comments that begins no token and separates none.
    #[error("at {at}: no token begins so")]
    BadByte { at: u32 },
    /// The first byte of a name, a variable or a directive of more than 255 bytes. The limit is
    /// this profile's.
    #[error("at {at}: the name is too long")]
    NameLong { at: u32 },
}
