ghost use Rattle.std.specs.Prelude.{◌≤◌, ◌<◌, ◌+◌, ◌^◌, ◌++◌, ℕ, List, length, take};
ghost use Rattle.cep_lex.specs.Places.{IsPlaceAfter};

use cep_base::Pos;
use cep_base::limits::MOST_TEXT;

/// The place of the first byte of a text.
pub const START: Pos = Pos { line: 1, col: 1 };

/// The line and the column after these bytes, the first of which stands at a place. Both count from
/// 1, columns count bytes, and LF ends a line.
pub fn place_after(pos: Pos, bytes: &[u8]) -> Pos
    requires line { pos.line + length bytes.now < 2 ^ 32 }
    requires col { pos.col + length bytes.now < 2 ^ 32 }
    ensures { (before : List ℕ) → IsPlaceAfter before pos
        → IsPlaceAfter (before ++ bytes.now) result }
{
    let mut after = pos;
    for byte in bytes {
        if *byte != b'\n' {
            after.col += 1;
            continue;
        }
        after.line += 1;
        after.col = 1;
    }
    after
}

/// The line and the column of a place in a text, in bytes from its start.
pub fn place(text: &[u8], at: u32) -> Pos
    requires short { length text.now ≤ MOST_TEXT }
    requires within { at ≤ length text.now }
    ensures { IsPlaceAfter (take at text.now) result }
{
    place_after(START, &text[..at as usize])
}
