ghost use Rattle.std.specs.Prelude.{◌≡◌, ◌≢◌, ℕ, ◌≤◌, ◌<◌, ◌+◌, ◌^◌, length, decimal, MatchOption, IfOk, IfSome, IfNone};
ghost use Rattle.cep_base.specs.Spelling.{is_name_byte};
ghost use Rattle.cep_text.specs.Reading.{Gives, literal_at, name_len, numbered_by};

use crate::stop::Stop;
use itoa::Buffer;

// The bytes after a word, if it stands at the front.
pub(crate) fn strip<'a>(word: &[u8], bytes: &'a [u8]) -> Option<&'a [u8]>
    ensures read { MatchOption result (literal_at word.now bytes.now ≡ None)
        (λ rest. literal_at word.now bytes.now ≡ Some rest.now) }
    ensures len { MatchOption result (Unit {0})
        (λ rest. length rest.now + length word.now ≡ length bytes.now) }
{
    bytes.strip_prefix(word)
}

// The bytes after a word that must stand at the front.
pub(crate) fn literal<'a>(word: &[u8], bytes: &'a [u8]) -> Result<&'a [u8], Stop>
    ensures read { Gives (λ rest. rest.now) result (literal_at word.now bytes.now) }
    ensures len { IfOk result (λ rest. length rest.now + length word.now ≡ length bytes.now) }
{
    match strip(word, bytes) {
        Some(rest) => Ok(rest),
        None => Err(Stop::Unread),
    }
}

// How many bytes of a name stand at the front.
pub(crate) fn name_len(bytes: &[u8]) -> usize
    ensures value { result ≡ name_len bytes.now }
    ensures within { result ≤ length bytes.now }
{
    bytes.iter().take_while(|byte| is_name_byte(**byte)).count()
}

// Whether a name goes on with the byte.
fn is_name_byte(byte: u8) -> bool
    ensures { result ≡ is_name_byte byte }
{
    byte.is_ascii_alphanumeric() || byte == b'_' || byte == b'/' || byte == b'\''
}

// The place, counted from 0, of which the word is the number, counted from 1, among so many.
pub(crate) fn numbered(word: &[u8], most: usize) -> Option<usize>
    requires { most < 2 ^ 32 }
    ensures { result ≡ numbered_by most word.now }
{
    let place = (plain(word)? as usize).checked_sub(1)?;
    if place < most { Some(place) } else { None }
}

// The number that the word is the decimal of.
fn plain(word: &[u8]) -> Option<u32>
    ensures some { IfSome result (λ n. word.now ≡ decimal n) }
    ensures short { IfSome result (λ n. n < 2 ^ 32) }
    ensures none { IfNone result ((n : ℕ) → n < 2 ^ 32 → word.now ≢ decimal n) }
{
    let Ok(text) = str::from_utf8(word) else {
        return None;
    };
    let Ok(number) = text.parse::<u32>() else {
        return None;
    };
    let mut buffer = Buffer::new();
    if buffer.format(number).as_bytes() == word {
        Some(number)
    } else {
        None
    }
}
