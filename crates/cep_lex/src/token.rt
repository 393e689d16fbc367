use cep_base::List;

/// What a token is. The spellings and the reserved words are this profile's.
#[derive(Clone, Copy)]
pub enum TokenKind {
    /// A lower-case letter and the letters, digits, `_`, `/` and `'` after it.
    Name,
    /// An upper-case letter and such a run.
    Variable,
    /// `_`
    Blank,
    /// Digits.
    Number,
    /// `#` and letters.
    Directive,
    Colon,
    Dot,
    Comma,
    Star,
    Dollar,
    Equals,
    Open,
    Close,
    OpenBrace,
    CloseBrace,
    /// `-o`
    Lolli,
    /// `<-`
    Back,
    KwType,
    KwPred,
    KwBwd,
    KwFact,
    KwStage,
    KwContext,
    KwQui,
}

/// A token: its kind, and the bytes of the text that spell it, from a place up to another.
#[derive(Clone, Copy)]
pub struct Token {
    pub kind: TokenKind,
    pub from: u32,
    pub to: u32,
}

/// Tokens in the order of their text.
pub type Tokens = List<Token>;
