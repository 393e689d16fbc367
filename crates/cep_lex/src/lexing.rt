ghost use Rattle.std.specs.Prelude.{◌≤◌, length, IfOk};
ghost use Rattle.cep_lex.specs.Cuts.{IsLexed};
ghost use Rattle.cep_lex.specs.Fronts.{Stands};

use crate::fault::LexFault;
use crate::gaps::gap_len;
use crate::token::{Token, Tokens};
use crate::words::{front, is_too_long};
use cep_base::limits::MOST_TEXT;
use std::alloc::{AllocError, Global};

// What stands at a place of a text.
#[derive(Clone, Copy)]
enum Step {
    // nothing but a gap
    End,
    // a gap and a token
    Next(Token),
    // a gap, and then what is no token
    Fault(LexFault),
}

// What stands at this place.
fn step_at(text: &[u8], at: usize) -> Step
    requires short { length text.now ≤ MOST_TEXT }
    requires within { at ≤ length text.now }
    ensures { Stands text.now at result }
{
    let from = at + gap_len(&text[at..]);
    if from == text.len() {
        return Step::End;
    }
    let Some((kind, size)) = front(&text[from..]) else {
        return Step::Fault(LexFault::BadByte { at: from as u32 });
    };
    if is_too_long(kind, size) {
        return Step::Fault(LexFault::NameLong { at: from as u32 });
    }
    Step::Next(Token {
        kind,
        from: from as u32,
        to: (from + size) as u32,
    })
}

/// The tokens of a text, in order, or the first fault in it: a byte that begins no token
/// (`BadByte`), or a name that is too long (`NameLong`). Each token is as long as it can be.
/// Comments go from `%` to the end of their line. The spellings are this profile's.
pub fn lex(alloc: Global, text: &[u8]) -> Result<Result<Tokens, LexFault>, AllocError>
    requires { length text.now ≤ MOST_TEXT }
    ensures { IfOk result (λ answer. IsLexed text.now answer) }
{
    let mut tokens = Tokens::new(alloc);
    let mut at = 0;
    loop {
        match step_at(text, at) {
            Step::End => return Ok(Ok(tokens)),
            Step::Fault(fault) => return Ok(Err(fault)),
            Step::Next(token) => {
                tokens.push(token)?;
                at = token.to as usize;
            }
        }
    }
}
