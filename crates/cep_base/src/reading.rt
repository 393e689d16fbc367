// Bytes that are read from their first one on: a prefix, a decimal.
ghost use Rattle.std.specs.Prelude.{◌≡◌, ◌≢◌, ℕ, ◌<◌, ◌^◌, List, ◌++◌, decimal, MatchOption};

use itoa::Buffer;

/// The bytes after a prefix, if they begin with it. It takes no memory.
pub fn strip<'a>(prefix: &[u8], bytes: &'a [u8]) -> Option<&'a [u8]>
    ensures { MatchOption result
        ((rest : List ℕ) → bytes.now ≢ prefix.now ++ rest)
        (λ rest. bytes.now ≡ prefix.now ++ rest.now) }
{
    bytes.strip_prefix(prefix)
}

/// The number from 0 to 2^64 - 1 that the bytes spell in decimal without leading zeros, if they
/// spell one. It takes no memory.
pub fn decimal(bytes: &[u8]) -> Option<u64>
    ensures { MatchOption result
        ((n : ℕ) → n < 2 ^ 64 → bytes.now ≢ decimal n)
        (λ n. (n < 2 ^ 64) × (bytes.now ≡ decimal n)) }
{
    let number = str::from_utf8(bytes).ok()?.parse().ok()?;
    let mut buffer = Buffer::new();
    (buffer.format(number).as_bytes() == bytes).then_some(number)
}
