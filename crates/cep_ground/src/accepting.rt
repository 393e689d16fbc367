ghost use Rattle.std.specs.Prelude.{IfOk};
ghost use Rattle.cep_ground.specs.Refusals.{IsAccepted};

use crate::laws::a_text_in_order_declares;
use crate::refusals::{of_grammar, of_tokens};
use crate::sealing::judged;
use cep_base::limits::MOST_TEXT;
use cep_infer::resolve;
use cep_lex::{lex, lexed_once};
use cep_parse::{one_raw_file, parse, parsed_once};
use cep_refusal::{Fault, Reason, Refusal};
use cep_rule::Program;
use std::alloc::{AllocError, Global};

/// The program that a text spells, or why it is refused: the first of its faults, by phase, place and
/// number. The syntax, the limits, the refusals and facts are this profile's; that atoms are well
/// typed, that states have no atom of a backward predicate and clauses no other, and that each
/// variable of a right side occurs on the left, is Ceptre's.
pub fn accept(alloc: Global, text: &[u8]) -> Result<Result<Program, Refusal>, AllocError>
    ensures { IfOk result (λ answer. IsAccepted text.now answer) }
{
    lexed_once();
    one_raw_file();
    parsed_once();
    a_text_in_order_declares();
    if text.len() > MOST_TEXT {
        let too_long = Fault {
            reason: Reason::TooLong,
            at: 0,
        };
        return Ok(Err(Refusal::of(text, too_long)));
    }
    let tokens = match lex(alloc, text)? {
        Ok(tokens) => tokens,
        Err(fault) => return Ok(Err(of_tokens(text, fault))),
    };
    let file = match parse(alloc, text, &tokens)? {
        Ok(file) => file,
        Err(fault) => return Ok(Err(of_grammar(text, &tokens, fault))),
    };
    match resolve(alloc, text, &file)? {
        Ok(draft) => judged(alloc, text, &file, draft),
        Err(refusal) => Ok(Err(refusal)),
    }
}
