ghost use Rattle.std.specs.Prelude.{◌≤◌, min, length};
ghost use Rattle.cep_base.specs.declared.limits.TheConstants.{MOST_TEXT};
ghost use Rattle.cep_refusal.specs.Told.{Tells};

use crate::fault::Fault;
use crate::reason::Reason;
use cep_base::Pos;
use cep_lex::place;

/// Why a text is refused, and where.
#[derive(Clone, Copy, PartialEq, Eq)]
pub struct Refusal {
    pub pos: Pos,
    pub reason: Reason,
}

impl Refusal {
    /// The refusal that tells of a fault of the text. A place after the end is the end.
    pub fn of(text: &[u8], fault: Fault) -> Refusal
        requires { min fault.at (length text.now) ≤ MOST_TEXT }
        ensures { Tells text.now fault result }
    {
        let at = (fault.at as usize).min(text.len());
        Refusal {
            pos: place(&text[..at], at as u32),
            reason: fault.reason,
        }
    }
}
