ghost use Rattle.std.specs.Prelude.{◌≡◌, ℕ, ◌^◌, ◌<◌, decimal, MatchOption};
ghost use Rattle.cep_words.specs.Words.{IsFromTo};
ghost use Rattle.cep_words.specs.Numerals.{begins_as_decimal};

// The number that is spelled in decimal without leading zeros, if one below 2^64 is.
pub(crate) fn number_of(digits: &[u8]) -> Option<u64>
    ensures { MatchOption result ((value : ℕ) → value < 2 ^ 64 → digits.now ≡ decimal value
        → ⊥) (λ value. digits.now ≡ decimal value) }
{
    if !begins_as_decimal(digits) {
        return None;
    }
    match str::from_utf8(digits) {
        Ok(text) => match text.parse() {
            Ok(number) => Some(number),
            Err(_) => None,
        },
        Err(_) => None,
    }
}

// The number that is spelled so, if it is from the least to the most.
pub(crate) fn number_within(digits: &[u8], least: u32, most: u32) -> Option<u32>
    ensures { MatchOption result
        ((value : ℕ) → IsFromTo least most value → digits.now ≡ decimal value → ⊥)
        (λ value. IsFromTo least most value × (digits.now ≡ decimal value)) }
{
    let value = number_of(digits)?;
    if u64::from(least) <= value && value <= u64::from(most) {
        Some(value as u32)
    } else {
        None
    }
}

// Whether the bytes are `0` alone or begin with another digit. std reads leading zeros and a plus
// too.
fn begins_as_decimal(digits: &[u8]) -> bool
    ensures { result ≡ begins_as_decimal digits.now }
{
    match digits {
        [] => false,
        [first] => *first >= b'0',
        [first, _, ..] => *first > b'0',
    }
}
