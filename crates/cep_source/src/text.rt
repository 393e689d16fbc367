ghost use Rattle.std.specs.Prelude.{◌≡◌};
ghost use Rattle.cep_parse.specs.Symbols.{slice_of};
ghost use Rattle.cep_source.specs.Starts.{turns_said};

use cep_base::limits::MOST_TURNS;
use cep_parse::Span;

/// What a text says at a span. Of a span that passes the end, what there is of it.
pub(crate) fn slice_at(text: &[u8], span: Span) -> &[u8]
    ensures { result.now ≡ slice_of text.now span.from span.to }
{
    let behind = &text[text.len().min(span.from as usize)..];
    let len = span.to.saturating_sub(span.from) as usize;
    &behind[..behind.len().min(len)]
}

/// How many turns the digits at a span say. None where these are no digits, or say 0 or more than a program may ask for.
#[tactic(auto, using(crate::proofs::Turns::no_text, crate::proofs::Turns::no_numeral, crate::proofs::Turns::some_turns))]
pub fn turns_said(text: &[u8], span: Span) -> Option<u32>
    ensures { result ≡ turns_said text.now span }
{
    let Ok(number) = str::from_utf8(slice_at(text, span)) else {
        return None;
    };
    match number.parse::<u32>() {
        Ok(turns) if 1 <= turns && turns <= MOST_TURNS => Some(turns),
        _ => None,
    }
}
