// Words at the front of a line, and numbers.
ghost use Rattle.std.specs.Prelude.{◌≡◌, ◌≢◌, ◌⊎◌, ℕ, ◌<◌, ◌^◌, List, [], ◌∷◌, ◌++◌, decimal, IfSome, IfNone, MatchOption};
ghost use Rattle.std.specs.List.{AllByRecursion};

use itoa::Buffer;

// The bytes after a word, if it stands at the front.
pub(crate) fn strip<'a>(word: &[u8], bytes: &'a [u8]) -> Option<&'a [u8]>
    ensures { MatchOption result ((rest : List ℕ)
        → bytes.now ≢ word.now ++ rest) (λ rest. bytes.now ≡ word.now ++ rest.now) }
{
    bytes.strip_prefix(word)
}

// The bytes up to the first space or to the end, and those from there on.
pub(crate) fn cut_word(bytes: &[u8]) -> (&[u8], &[u8])
    ensures all { bytes.now ≡ result.0.now ++ result.1.now }
    ensures unspaced { AllByRecursion (λ byte. byte ≢ 32) result.0.now }
    ensures cut { (result.1.now ≡ []) ⊎ ((behind : List ℕ) × (result.1.now ≡ 32 ∷ behind)) }
{
    bytes.split_at(bytes.iter().take_while(|byte| **byte != b' ').count())
}

// The number that the word is the decimal of.
pub(crate) fn plain(word: &[u8]) -> Option<u32>
    ensures some { IfSome result (λ n. word.now ≡ decimal n) }
    ensures none { IfNone result ((n : ℕ) → n < 2 ^ 32 → word.now ≢ decimal n) }
{
    let Ok(text) = str::from_utf8(word) else {
        return None;
    };
    let Ok(number) = text.parse::<u32>() else {
        return None;
    };
    let mut buffer = Buffer::new();
    if buffer.format(number).as_bytes() == word {
        Some(number)
    } else {
        None
    }
}
