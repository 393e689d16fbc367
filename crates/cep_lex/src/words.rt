// The token that bytes begin with.
ghost use Rattle.std.specs.Prelude.{◌≡◌, ◌<◌, ◌≤◌, length, slice_index, IfSome, IfNone, MatchBool};
ghost use Rattle.std.specs.List.{prefix_len};
ghost use Rattle.cep_lex.specs.Words.{SpellsToken, BeginsNoToken};
ghost use Rattle.cep_lex.specs.Fronts.{class, passes, BeginsWith, HasSecond, IsLetters, IsFront, IsLongLength, IsShortLength};

use crate::token::TokenKind;
use cep_base::limits::MOST_NAME;

/// What the first byte of a token says of it.
#[derive(Clone, Copy)]
pub(crate) enum Class {
    /// A letter begins a name, a variable or a reserved word.
    Letter,
    /// A digit begins a number.
    Digit,
    /// `#` begins a directive.
    Hash,
    /// `-` begins `-o`, and `<` begins `<-`: a token of this kind, where this byte is the second.
    Pair(TokenKind, u8),
    /// A byte that is a token by itself.
    Mark(TokenKind),
    /// A byte that begins no token.
    Other,
}

/// The bytes of which a run consists.
#[derive(Clone, Copy)]
pub(crate) enum RunOf {
    NameBytes,
    Digits,
    Letters,
}

fn class_of(byte: u8) -> Class
    ensures class { result ≡ class byte }
    ensures told { BeginsWith result byte }
{
    if byte.is_ascii_alphabetic() {
        return Class::Letter;
    }
    if byte.is_ascii_digit() {
        return Class::Digit;
    }
    match byte {
        b'#' => Class::Hash,
        b'-' => Class::Pair(TokenKind::Lolli, b'o'),
        b'<' => Class::Pair(TokenKind::Back, b'-'),
        b'_' => Class::Mark(TokenKind::Blank),
        b':' => Class::Mark(TokenKind::Colon),
        b'.' => Class::Mark(TokenKind::Dot),
        b',' => Class::Mark(TokenKind::Comma),
        b'*' => Class::Mark(TokenKind::Star),
        b'$' => Class::Mark(TokenKind::Dollar),
        b'=' => Class::Mark(TokenKind::Equals),
        b'(' => Class::Mark(TokenKind::Open),
        b')' => Class::Mark(TokenKind::Close),
        b'{' => Class::Mark(TokenKind::OpenBrace),
        b'}' => Class::Mark(TokenKind::CloseBrace),
        _ => Class::Other,
    }
}

// Whether a run of this kind goes on with the byte.
fn goes_on(run: RunOf, byte: u8) -> bool
    ensures { result ≡ passes run byte }
{
    match run {
        RunOf::NameBytes => {
            byte.is_ascii_alphanumeric() || byte == b'_' || byte == b'/' || byte == b'\''
        }
        RunOf::Digits => byte.is_ascii_digit(),
        RunOf::Letters => byte.is_ascii_alphabetic(),
    }
}

// How long the run at the front is.
fn run_len(bytes: &[u8], run: RunOf) -> usize
    ensures within { result ≤ length bytes.now }
    ensures longest { result ≡ prefix_len (passes run) bytes.now }
{
    bytes.iter().take_while(|byte| goes_on(run, **byte)).count()
}

// The kind of a word that is a letter and name bytes.
fn name_kind(word: &[u8]) -> TokenKind
    requires { IsLetters word.now }
    ensures { SpellsToken result word.now }
{
    if word[0].is_ascii_uppercase() {
        return TokenKind::Variable;
    }
    match word {
        b"type" => TokenKind::KwType,
        b"pred" => TokenKind::KwPred,
        b"bwd" => TokenKind::KwBwd,
        b"fact" => TokenKind::KwFact,
        b"stage" => TokenKind::KwStage,
        b"context" => TokenKind::KwContext,
        b"qui" => TokenKind::KwQui,
        _ => TokenKind::Name,
    }
}

// `#` and the letters after it, if there is one.
fn directive(bytes: &[u8]) -> Option<(TokenKind, usize)>
    requires some { 0 < length bytes.now }
    requires hash { slice_index bytes.now 0 ≡ 35 }
    ensures found { IfSome result (λ front. IsFront bytes.now front.0 front.1) }
    ensures none { IfNone result (BeginsNoToken bytes.now) }
{
    match run_len(&bytes[1..], RunOf::Letters) {
        0 => None,
        len => Some((TokenKind::Directive, 1 + len)),
    }
}

// Whether the second byte is this one.
fn has_second(bytes: &[u8], second: u8) -> bool
    ensures { MatchBool result (HasSecond bytes.now second) (HasSecond bytes.now second → ⊥) }
{
    bytes.len() > 1 && bytes[1] == second
}

// The token of two bytes, if the second is there.
fn pair(bytes: &[u8], kind: TokenKind, second: u8) -> Option<(TokenKind, usize)>
    requires some { 0 < length bytes.now }
    requires class { class (slice_index bytes.now 0) ≡ Class.Pair kind second }
    requires told { BeginsWith (Class.Pair kind second) (slice_index bytes.now 0) }
    ensures found { IfSome result (λ front. IsFront bytes.now front.0 front.1) }
    ensures none { IfNone result (BeginsNoToken bytes.now) }
{
    if has_second(bytes, second) {
        Some((kind, 2))
    } else {
        None
    }
}

/// The token that the bytes begin with, as long as it can be: its kind and its length. None where
/// no token begins so.
pub(crate) fn front(bytes: &[u8]) -> Option<(TokenKind, usize)>
    requires { 0 < length bytes.now }
    ensures found { IfSome result (λ front. IsFront bytes.now front.0 front.1) }
    ensures none { IfNone result (BeginsNoToken bytes.now) }
{
    match class_of(bytes[0]) {
        Class::Letter => {
            let len = 1 + run_len(&bytes[1..], RunOf::NameBytes);
            Some((name_kind(&bytes[..len]), len))
        }
        Class::Digit => Some((TokenKind::Number, 1 + run_len(&bytes[1..], RunOf::Digits))),
        Class::Hash => directive(bytes),
        Class::Pair(kind, second) => pair(bytes, kind, second),
        Class::Mark(kind) => Some((kind, 1)),
        Class::Other => None,
    }
}

/// Whether a token of this kind and length is longer than it may be. A number has no limit.
pub(crate) fn is_too_long(kind: TokenKind, len: usize) -> bool
    ensures { MatchBool result (IsLongLength kind len) (IsShortLength kind len) }
{
    match kind {
        TokenKind::Number => false,
        _ => len > MOST_NAME,
    }
}
