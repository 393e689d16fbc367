// A token as the grammar sees it.
ghost use Rattle.std.specs.Prelude.{◌≡◌, ◌≤◌, length};
ghost use Rattle.cep_parse.specs.Symbols.{directive_word, word_of, symbol_of};

use crate::raw::Span;
use cep_lex::{Token, TokenKind};

/// What a token is to the grammar: of the directives two are told apart, and the tokens that no
/// form uses are one.
#[derive(Clone, Copy)]
pub(crate) enum Word {
    Name,
    Variable,
    Blank,
    Number,
    Interactive,
    Trace,
    Colon,
    Dot,
    Comma,
    Star,
    Dollar,
    Equals,
    Lolli,
    Back,
    Open,
    Close,
    OpenBrace,
    CloseBrace,
    Type,
    Pred,
    Bwd,
    Fact,
    Stage,
    Context,
    Qui,
    Other,
}

/// A token's word, with its bytes.
#[derive(Clone, Copy)]
pub(crate) struct Symbol {
    pub(crate) word: Word,
    pub(crate) at: Span,
}

fn directive_word(bytes: &[u8]) -> Word
    ensures { result ≡ directive_word bytes.now }
{
    if bytes == b"#interactive".as_slice() {
        Word::Interactive
    } else if bytes == b"#trace".as_slice() {
        Word::Trace
    } else {
        Word::Other
    }
}

fn word_of(kind: TokenKind, bytes: &[u8]) -> Word
    ensures { result ≡ word_of kind bytes.now }
{
    match kind {
        TokenKind::Name => Word::Name,
        TokenKind::Variable => Word::Variable,
        TokenKind::Blank => Word::Blank,
        TokenKind::Number => Word::Number,
        TokenKind::Directive => directive_word(bytes),
        TokenKind::Colon => Word::Colon,
        TokenKind::Dot => Word::Dot,
        TokenKind::Comma => Word::Comma,
        TokenKind::Star => Word::Star,
        TokenKind::Dollar => Word::Dollar,
        TokenKind::Equals => Word::Equals,
        TokenKind::Open => Word::Open,
        TokenKind::Close => Word::Close,
        TokenKind::OpenBrace => Word::OpenBrace,
        TokenKind::CloseBrace => Word::CloseBrace,
        TokenKind::Lolli => Word::Lolli,
        TokenKind::Back => Word::Back,
        TokenKind::KwType => Word::Type,
        TokenKind::KwPred => Word::Pred,
        TokenKind::KwBwd => Word::Bwd,
        TokenKind::KwFact => Word::Fact,
        TokenKind::KwStage => Word::Stage,
        TokenKind::KwContext => Word::Context,
        TokenKind::KwQui => Word::Qui,
    }
}

/// The token as the grammar sees it.
pub(crate) fn symbol_of(text: &[u8], token: &Token) -> Symbol
    requires ordered { token.now.from ≤ token.now.to }
    requires within { token.now.to ≤ length text.now }
    ensures { result ≡ symbol_of text.now token.now }
{
    let bytes = &text[token.from as usize..token.to as usize];
    Symbol {
        word: word_of(token.kind, bytes),
        at: Span {
            from: token.from,
            to: token.to,
        },
    }
}
