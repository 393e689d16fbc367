ghost use Rattle.std.specs.Prelude.{IfOk};
ghost use Rattle.std.specs.List.{AllByRecursion};
ghost use Rattle.cep_rule.specs.Groundness.{IsGrounded};
ghost use Rattle.cep_infer.specs.Meaning.{AreParts};
ghost use Rattle.cep_infer.specs.Places.{IsDraft};
ghost use Rattle.cep_ground.specs.Texts.{IsClean, IsBound, Spells};
ghost use Rattle.cep_ground.specs.Refusals.{IsAccepted};

use crate::laws::clean_parts_are_a_program;
use crate::places::{earliest_of_all, earliest_of_marked};
use cep_infer::Draft;
use cep_lex::lexed_once;
use cep_modes::ungrounded_premises;
use cep_parse::{RawFile, one_raw_file, parsed_once};
use cep_refusal::{Reason, Refusal};
use cep_rule::{Parts, Program};
use std::alloc::{AllocError, Global};

// The program of a text's draft, where nothing is wrong with its names and types.
pub(crate) fn judged(
    alloc: Global,
    text: &[u8],
    file: &RawFile,
    draft: Draft,
) -> Result<Result<Program, Refusal>, AllocError>
    requires clean { IsClean (record { text = text.now; file = file.now }) }
    requires declared { IsDraft (record { text = text.now; file = file.now }) draft }
    ensures { IfOk result (λ answer. IsAccepted text.now answer) }
{
    lexed_once();
    one_raw_file();
    parsed_once();
    match earliest_of_all(&draft.right_places) {
        Some(pos) => Ok(Err(Refusal {
            pos,
            reason: Reason::Unbound,
        })),
        None => grounded(alloc, text, file, draft),
    }
}

// The same, where each variable of a right side is on the left too.
fn grounded(
    alloc: Global,
    text: &[u8],
    file: &RawFile,
    draft: Draft,
) -> Result<Result<Program, Refusal>, AllocError>
    requires clean { IsClean (record { text = text.now; file = file.now }) }
    requires bound { IsBound (record { text = text.now; file = file.now }) }
    requires declared { IsDraft (record { text = text.now; file = file.now }) draft }
    ensures { IfOk result (λ answer. IsAccepted text.now answer) }
{
    clean_parts_are_a_program();
    lexed_once();
    one_raw_file();
    parsed_once();
    let marks = ungrounded_premises(alloc, &draft.parts)?;
    match earliest_of_marked(&draft.back_places, &marks) {
        Some(pos) => Ok(Err(Refusal {
            pos,
            reason: Reason::Ungrounded,
        })),
        None => Ok(Ok(sealed(text, file, draft.parts))),
    }
}

// The program of the parts that a text in order declares.
fn sealed(text: &[u8], file: &RawFile, parts: Parts) -> Program
    requires clean { IsClean (record { text = text.now; file = file.now }) }
    requires bound { IsBound (record { text = text.now; file = file.now }) }
    requires declared { AreParts (record { text = text.now; file = file.now }) parts }
    requires grounded { AllByRecursion (IsGrounded parts.clauses) parts.rules }
    ensures { Spells text.now result }
{
    clean_parts_are_a_program();
    Program::seal(parts)
}
