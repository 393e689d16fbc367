// What the bytes of a line spell, as far as they are read.
ghost use Rattle.std.specs.Prelude.{◌≡◌, ℕ, ◌<◌, ◌≤◌, ◌^◌, List, [], ◌∷◌, ◌++◌};
ghost use Rattle.cep_choice.specs.declared.typed.Typed.TheVariants.{Number, Bad};
ghost use Rattle.cep_choice.specs.TypedLine.{IsPlaceWithin};
ghost use Rattle.cep_choice.specs.Typed.{Reads, IsWithin, IsOfLine, SaysOf};

use crate::reading::Said;

/// A line that is read byte by byte. A number is kept only while it is a place among `n`: a longer
/// one is larger still.
#[derive(Clone, Copy)]
pub enum Typed {
    /// No byte yet.
    Empty,
    /// A number.
    Number(u32),
    /// A number and one CR.
    Closed(u32),
    /// Whatever follows, the line chooses nothing.
    Bad,
}

impl Typed {
    /// The line with one byte more.
    pub fn then(self, n: u32, byte: u8) -> Typed
        requires { IsWithin n self }
        ensures within { IsWithin n result }
        ensures reads { (bytes : List ℕ) → Reads n self bytes
            → Reads n result (bytes ++ byte ∷ []) }
    {
        match self {
            Typed::Empty => match byte {
                b'1'..=b'9' => number(n, u64::from(byte - b'0')),
                _ => Typed::Bad,
            },
            Typed::Number(value) => match byte {
                b'0'..=b'9' => number(n, u64::from(value) * 10 + u64::from(byte - b'0')),
                b'\r' => Typed::Closed(value),
                _ => Typed::Bad,
            },
            Typed::Closed(_) | Typed::Bad => Typed::Bad,
        }
    }

    /// What the whole line says.
    pub fn said(self) -> Said
        ensures of_line { IsOfLine result }
        ensures within { (n : ℕ) → IsWithin n self → IsPlaceWithin n result }
        ensures says { (n : ℕ) (line : List ℕ) → n < 2 ^ 32 → IsWithin n self → Reads n self line
            → SaysOf n line result }
    {
        match self {
            Typed::Number(value) | Typed::Closed(value) => Said::Number(value),
            Typed::Empty | Typed::Bad => Said::Bad,
        }
    }
}

// The number, if it is no greater than `n`.
fn number(n: u32, value: u64) -> Typed
    ensures kept { value ≤ n → result ≡ Number value }
    ensures large { n < value → result ≡ Bad }
{
    match u32::try_from(value) {
        Ok(value) if value <= n => Typed::Number(value),
        _ => Typed::Bad,
    }
}
