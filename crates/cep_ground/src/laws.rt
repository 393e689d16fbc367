//! Laws of texts and programs. Each function computes nothing, and its contract is the law.
ghost use Rattle.std.specs.Prelude.{◌≡◌, ℕ, List, length, Contains};
ghost use Rattle.std.specs.List.{AllByRecursion};
ghost use Rattle.cep_rule.specs.declared.rule.Rule.{Rule};
ghost use Rattle.cep_rule.specs.declared.parts.Parts.{Parts};
ghost use Rattle.cep_rule.specs.Groundness.{IsGrounded};
ghost use Rattle.cep_rule.specs.Program.{IsProgram};
ghost use Rattle.cep_refusal.specs.declared.fault.Fault.{Fault};
ghost use Rattle.cep_refusal.specs.declared.refusal.Refusal.{Refusal};
ghost use Rattle.cep_refusal.specs.Told.{Tells};
ghost use Rattle.cep_modes.specs.Grounding.{AreInOrder};
ghost use Rattle.cep_source.specs.Items.{Source, RuleItem, rules_of};
ghost use Rattle.cep_infer.specs.Meaning.{AreParts, IsRuleBy};
ghost use Rattle.cep_infer.specs.Places.{backs_at};
ghost use Rattle.cep_ground.specs.Texts.{IsClean, IsBound, Spells};
ghost use Rattle.cep_ground.specs.Refusals.{IsWrong, IsRefusedFor};

use cep_infer::laws::{atoms_are_made_of_tokens, start_atoms_are_ground};
use cep_lex::{every_text_is_lexed, lexed_once};
use cep_parse::{all_tokens_are_parsed, items_are_made_of_tokens, one_raw_file, parsed_once};
use cep_term::laws::bags_are_lawful;

/// What a text declares is a program, where nothing is wrong with its names and types, each variable
/// of a right side is on the left, and no backward premise may leave a variable unknown. Without the
/// last its modes can be decided, and its rules have as many backward premises as are written.
pub fn clean_parts_are_a_program()
    ensures program { (source : Source) (parts : Parts)
        → IsClean source
        → IsBound source
        → AreParts source parts
        → AllByRecursion (IsGrounded parts.clauses) parts.rules
        → IsProgram parts }
    ensures in_order { (source : Source) (parts : Parts)
        → IsClean source
        → IsBound source
        → AreParts source parts
        → AreInOrder parts }
    ensures counted { (source : Source)
        → IsClean source
        → IsBound source
        → (item : RuleItem) (rule : Rule)
        → Contains (rules_of source) item
        → IsRuleBy source item rule
        → length rule.backs ≡ length (backs_at source item) }
{
    items_are_made_of_tokens();
    atoms_are_made_of_tokens();
    start_atoms_are_ground();
    bags_are_lawful();
}

/// A text spells one program at most.
pub fn one_program()
    ensures { (text : List ℕ) (one other : Parts)
        → Spells text one
        → Spells text other
        → one ≡ other }
{
    lexed_once();
    one_raw_file();
}

/// A text in order declares a program's parts.
pub fn a_text_in_order_declares()
    ensures { (source : Source) → IsClean source → (parts : Parts) × AreParts source parts }
{
    atoms_are_made_of_tokens();
    start_atoms_are_ground();
}

/// Nothing is wrong with a text that spells a program, so no text is both a program and refused.
pub fn no_program_is_refused()
    ensures { (text : List ℕ) (parts : Parts) (fault : Fault)
        → Spells text parts
        → ¬ (IsWrong text fault) }
{
    lexed_once();
    one_raw_file();
    parsed_once();
}

/// A text with which nothing is wrong spells a program, and so does a text that is refused for no
/// fault: no text is neither. Which of the two a text is, `accept` decides.
pub fn a_text_with_nothing_wrong_is_a_program()
    ensures right { (text : List ℕ)
        → ((fault : Fault) → ¬ (IsWrong text fault))
        → (parts : Parts) × Spells text parts }
    ensures unrefused { (text : List ℕ)
        → ((fault : Fault) → ¬ (IsRefusedFor text fault))
        → (parts : Parts) × Spells text parts }
{
    every_text_is_lexed();
    all_tokens_are_parsed();
    a_text_in_order_declares();
    clean_parts_are_a_program();
}

/// A text is refused for one fault at most, and one refusal tells of it.
pub fn one_refusal()
    ensures fault { (text : List ℕ) (one other : Fault)
        → IsRefusedFor text one
        → IsRefusedFor text other
        → one ≡ other }
    ensures told { (text : List ℕ) (fault : Fault) (one other : Refusal)
        → Tells text fault one
        → Tells text fault other
        → one ≡ other }
{}
