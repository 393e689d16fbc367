// The words of a line, and what each by itself says.
ghost use Rattle.std.specs.Prelude.{◌≡◌, ◌≢◌, ◌↔◌, map, IsTrue, IfOk, MatchOption, ℤ};
ghost use Rattle.std.specs.List.{AllByRecursion};
ghost use Rattle.std.specs.Char.{is_ascii_lowercase};
ghost use Rattle.std.specs.Fmt.{signed_decimal};
ghost use Rattle.std.specs.Int.RustNames.{FitsSigned};
ghost use Rattle.cep_base.specs.Spelling.{is_name_byte, reserved_words};
ghost use Rattle.cep_rule.specs.Names.{IsName, IsWord};
ghost use Rattle.cep_claim.specs.declared.weight.Claim.{Claim};
ghost use Rattle.cep_claim.specs.Factors.{IsFactor};
ghost use Rattle.cep_claim.specs.Written.{SaysNothing, words_of, claim_word};

use crate::limits::MOST_FACTOR;
use crate::weight::Claim;
use cep_base::limits::MOST_NAME;
use itoa::Buffer;
use std::alloc::{AllocError, Global};

/// Whether the line says nothing. It takes no memory.
pub fn says_nothing(line: &[u8]) -> bool
    ensures { IsTrue result ↔ SaysNothing line.now }
{
    match line {
        [] => true,
        [first, ..] => *first == b'%',
    }
}

// The words of a line: what stands before, between and after its spaces.
pub(crate) fn words_of(alloc: Global, line: &[u8]) -> Result<Vec<&[u8]>, AllocError>
    ensures { IfOk result (λ words. map (λ word. word.now) words.items ≡ words_of line.now) }
{
    line.split(|byte| *byte == b' ').collect(alloc)
}

// What the word of a claim claims.
pub(crate) fn claim_word(word: &[u8]) -> Option<Claim>
    ensures { MatchOption result
        ((claim : Claim) → word.now ≢ claim_word claim)
        (λ claim. word.now ≡ claim_word claim) }
{
    match word {
        b"keep" => Some(Claim::Keep),
        b"most" => Some(Claim::Most),
        b"fall" => Some(Claim::Fall),
        _ => None,
    }
}

// The factor that the word spells.
pub(crate) fn factor_word(word: &[u8]) -> Option<i64>
    ensures { MatchOption result
        ((factor : ℤ) → IsFactor factor → word.now ≢ signed_decimal factor)
        (λ factor. IsFactor factor × (word.now ≡ signed_decimal factor)) }
{
    let factor = number_word(word)?;
    if is_factor(factor) {
        Some(factor)
    } else {
        None
    }
}

// Whether the number may be a factor.
fn is_factor(number: i64) -> bool
    ensures { IsTrue result ↔ IsFactor number }
{
    number != 0 && -MOST_FACTOR <= number && number <= MOST_FACTOR
}

// The number that the word is the decimal of, with `-` before it where it is negative.
fn number_word(word: &[u8]) -> Option<i64>
    ensures { MatchOption result
        ((number : ℤ) → IsFactor number → word.now ≢ signed_decimal number)
        (λ number. word.now ≡ signed_decimal number) }
{
    let Ok(text) = str::from_utf8(word) else {
        return None;
    };
    let Ok(number) = text.parse::<i64>() else {
        return None;
    };
    let mut buffer = Buffer::new();
    if buffer.format(number).as_bytes() == word {
        Some(number)
    } else {
        None
    }
}

// Whether the word is a name.
pub(crate) fn is_name(word: &[u8]) -> bool
    ensures { IsTrue result ↔ IsName word.now }
{
    is_word(word) && is_free(word) && word.len() <= MOST_NAME
}

// Whether the word begins with a small letter and goes on as a name.
fn is_word(word: &[u8]) -> bool
    ensures { IsTrue result ↔ IsWord is_ascii_lowercase word.now }
{
    match word {
        [] => false,
        [first, rest @ ..] => first.is_ascii_lowercase() && go_on(rest),
    }
}

// Whether a name goes on with these bytes.
fn go_on(bytes: &[u8]) -> bool
    ensures { IsTrue result ↔ AllByRecursion (λ byte. IsTrue (is_name_byte byte)) bytes.now }
{
    bytes.iter().all(|byte| is_name_byte(*byte))
}

// Whether a name goes on with the byte.
fn is_name_byte(byte: u8) -> bool
    ensures { result ≡ is_name_byte byte }
{
    byte.is_ascii_alphanumeric() || byte == b'_' || byte == b'/' || byte == b'\''
}

// Whether the word is not reserved.
fn is_free(word: &[u8]) -> bool
    ensures { IsTrue result ↔ AllByRecursion (λ reserved. word.now ≢ reserved) reserved_words }
{
    !matches!(
        word,
        b"type" | b"pred" | b"bwd" | b"fact" | b"stage" | b"context" | b"qui"
    )
}
