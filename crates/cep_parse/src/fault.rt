use thiserror::Error;

/// Why tokens are no file: the first fault among them, with its place in bytes from the front of
/// the text.
#[derive(Clone, Copy, Debug, Error)]
pub enum ParseFault {
    /// The first token such that no file begins with the tokens up to it and with it; the end of
    /// the text, where files begin with all of them and they are none.
    #[error("at {at}: no file goes on so")]
    Unexpected { at: u32 },
    /// The parenthesis that would be the 513th open one. The limit is this profile's.
    #[error("at {at}: too many open parentheses")]
    Nested { at: u32 },
}
