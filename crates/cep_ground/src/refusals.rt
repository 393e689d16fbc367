ghost use Rattle.std.specs.Prelude.{◌≤◌, length, Err};
ghost use Rattle.cep_lex.specs.Cuts.{AreTokens, IsLexed};
ghost use Rattle.cep_parse.specs.Files.{IsParsed};
ghost use Rattle.cep_ground.specs.Refusals.{IsAccepted};

use cep_base::limits::MOST_TEXT;
use cep_lex::{LexFault, Tokens, lexed_once};
use cep_parse::{ParseFault, parsed_once};
use cep_refusal::{Fault, Reason, Refusal};

// The refusal of a text whose tokens have a fault.
pub(crate) fn of_tokens(text: &[u8], fault: LexFault) -> Refusal
    requires short { length text.now ≤ MOST_TEXT }
    requires fault { IsLexed text.now (Err fault) }
    ensures { IsAccepted text.now (Err result) }
{
    lexed_once();
    match fault {
        LexFault::BadByte { at } => Refusal::of(
            text,
            Fault {
                reason: Reason::BadByte,
                at,
            },
        ),
        LexFault::NameLong { at } => Refusal::of(
            text,
            Fault {
                reason: Reason::NameLong,
                at,
            },
        ),
    }
}

// The refusal of a text whose tokens are no file.
pub(crate) fn of_grammar(text: &[u8], tokens: &Tokens, fault: ParseFault) -> Refusal
    requires short { length text.now ≤ MOST_TEXT }
    requires tokens { AreTokens text.now tokens.now }
    requires fault { IsParsed text.now tokens.now (Err fault) }
    ensures { IsAccepted text.now (Err result) }
{
    lexed_once();
    parsed_once();
    match fault {
        ParseFault::Unexpected { at } => Refusal::of(
            text,
            Fault {
                reason: Reason::Unexpected,
                at,
            },
        ),
        ParseFault::Nested { at } => Refusal::of(
            text,
            Fault {
                reason: Reason::Nested,
                at,
            },
        ),
    }
}
