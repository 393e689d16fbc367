// What stands between tokens: separators and comments.
ghost use Rattle.std.specs.Prelude.{◌≡◌, ◌≤◌, length};
ghost use Rattle.cep_lex.specs.Cuts.{is_separator};
ghost use Rattle.cep_lex.specs.Fronts.{IsGapLength};

// Whether the byte separates tokens: a space, a tab, CR or LF.
fn is_separator(byte: u8) -> bool
    ensures { result ≡ is_separator byte }
{
    byte == b' ' || byte == b'\t' || byte == b'\r' || byte == b'\n'
}

/// How many bytes at the front are a gap: all of them, or those before the first byte outside
/// comments that separates no tokens.
pub(crate) fn gap_len(bytes: &[u8]) -> usize
    ensures within { result ≤ length bytes.now }
    ensures gap { IsGapLength bytes.now result }
{
    let mut in_comment = false;
    for (i, byte) in bytes.iter().enumerate() {
        if in_comment {
            in_comment = *byte != b'\n';
        } else if *byte == b'%' {
            in_comment = true;
        } else if !is_separator(*byte) {
            return i;
        }
    }
    bytes.len()
}
