//! Laws of transcripts, for the crates that rest on them. Each function computes nothing, and its
//! contract is the law.
ghost use Rattle.std.specs.Prelude.{◌≡◌, ◌≤◌, ◌<◌, ℕ, List, length, decimal, slice_get};
ghost use Rattle.std.specs.FinMap as finite;
ghost use Rattle.std.specs.List.{AllByRecursion, flat_map};
ghost use Rattle.cep_term.specs.Tree.{AtomTree};
ghost use Rattle.cep_rule.specs.declared.offer.Offer.{Offer};
ghost use Rattle.cep_rule.specs.Derivations.{ProofTree};
ghost use Rattle.cep_rule.specs.Shapes.{IsOfferOf, IsProofOf};
ghost use Rattle.cep_text.specs.Texts.{atom_text, offer_text, proof_text, IsTypedGround};
ghost use Rattle.cep_lines.specs.Lines.{line, stage_name};
ghost use Rattle.cep_term.specs.Multiset.{Multiset};
ghost use Rattle.cep_rule.specs.declared.signature.Signature.{Signature};
ghost use Rattle.cep_rule.specs.State.{IsState, Fits};
ghost use Rattle.cep_rule.specs.declared.parts.Parts.{Parts};
ghost use Rattle.cep_rule.specs.Program.{IsProgram};
ghost use Rattle.cep_rule.specs.Limits.{IsHeight};
ghost use Rattle.cep_rule.specs.Stages.{IsQuiet};
ghost use Rattle.cep_step.specs.Deeds.{Position, start_of, Deed, AreDeeds};
ghost use Rattle.cep_lines.specs.declared.end_word.EndWord.{EndWord};
ghost use Rattle.cep_lines.specs.declared.end_word.EndWord.TheVariants.{Quiet};
ghost use Rattle.cep_log.specs.Holding.{TellRun, HoldsDeeds};
ghost use Rattle.cep_log.specs.declared.log.Log.{Log};
ghost use Rattle.cep_log.specs.Legal.{IsListing, IsLegal};
ghost use Rattle.cep_log.specs.Written.{text_of, TellLog, SayTheSame, TellTheSame, IsRenewal};
ghost use Rattle.cep_base.specs.declared.limits.TheConstants.{MOST_LOG};
ghost use Rattle.cep_log.specs.declared.fault.LogFault.{LogFault};
ghost use Rattle.cep_log.specs.Transcript.{AreLines, IsOneLine, HasLog, HasMisfit};

use cep_rule::laws::{
    derivations_have_shape, one_state_after_a_step, steps_lead_to_states, values_are_small,
    what_is_needed_is_there,
};
use cep_term::laws::bags_are_lawful;
use cep_text::laws::one_value;

/// Bytes say one log at most, where they say one there is no misfit in them, and their first misfit
/// is one.
pub fn one_log()
    ensures once { (program : Parts) (bytes : List ℕ) (one other : Log)
        → IsProgram program
        → HasLog program bytes one
        → HasLog program bytes other
        → one ≡ other }
    ensures apart { (program : Parts) (bytes : List ℕ) (log : Log) (fault : LogFault)
        → IsProgram program
        → HasLog program bytes log
        → ¬ (HasMisfit program bytes fault) }
    ensures misfit { (program : Parts) (bytes : List ℕ) (one other : LogFault)
        → IsProgram program
        → HasMisfit program bytes one
        → HasMisfit program bytes other
        → one ≡ other }
{
    one_value();
}

/// The texts of which lines are made can be written as one line each, and lines that are written
/// one after another are the lines of what was written.
pub fn lines_are_read_as_written()
    ensures lines { (lines : List (List ℕ)) → AllByRecursion IsOneLine lines
        → AreLines (flat_map line lines) lines }
    ensures numbers { (number : ℕ) → IsOneLine (decimal number) }
    ensures atoms { (program : Parts) (a : AtomTree) → IsProgram program
        → IsTypedGround program.signature a → IsOneLine (atom_text program.signature a) }
    ensures offers { (program : Parts) (offer : Offer) → IsProgram program → IsOfferOf program offer
        → IsOneLine (offer_text program offer) }
    ensures derivations { (program : Parts) (proof : ProofTree) → IsProgram program
        → IsProofOf program proof → IsOneLine (proof_text program proof) }
    ensures stages { (program : Parts) (stage : ℕ) → IsProgram program
        → stage < length program.stages → IsOneLine (stage_name (slice_get program.stages stage)) }
{}

/// The entries of a state that fits are a listing.
pub fn states_are_listings()
    ensures { (signature : Signature) (state : Multiset) → IsState signature state → Fits state
        → IsListing signature (finite.entries state) }
{
    bags_are_lawful();
}

/// A legal log that is written line by line, with remarks between its steps or none, is read as a log
/// that says the same and is legal: only the numbers of its lines differ. Lines are no more than
/// bytes, and steps no more than lines. Logs that say the same in one version have one text.
pub fn logs_are_read_as_written()
    ensures read { (program : Parts) (log : Log) (lines : List (List ℕ))
        → IsProgram program
        → IsLegal program log
        → TellLog program lines log
        → length (flat_map line lines) ≤ MOST_LOG
        → (read : Log) × HasLog program (flat_map line lines) read × IsLegal program read
        × (read.version ≡ log.version) × TellTheSame SayTheSame log read }
    ensures few { (lines : List (List ℕ)) → length lines ≤ length (flat_map line lines) }
    ensures long { (program : Parts) (log : Log) (lines : List (List ℕ)) → TellLog program lines log
        → length log.steps ≤ length lines }
    ensures text { (program : Parts) (one other : Log)
        → one.version ≡ other.version
        → TellTheSame SayTheSame one other
        → text_of program one ≡ text_of program other }
{
    steps_lead_to_states();
    what_is_needed_is_there();
    derivations_have_shape();
    values_are_small();
}

/// What a log is renewed into has one text: the states after its steps are determined.
pub fn renewals_have_one_text()
    ensures { (program : Parts) (old one other : Log)
        → IsRenewal program old one
        → IsRenewal program old other
        → text_of program one ≡ text_of program other }
{
    one_state_after_a_step();
}

/// What deeds leave as a transcript, whoever decided on them: a log that holds lawful deeds from where
/// the program begins, and how they ended, is legal. What is written of them, with remarks or none
/// between them, has such a log, if it is not too long. So a check accepts it.
pub fn deeds_have_legal_logs()
    ensures legal { (program : Parts) (height : ℕ) (deeds : List Deed) (last : Position)
        (word : EndWord) (log : Log)
        → IsProgram program
        → IsHeight height
        → AreDeeds program height (start_of program) deeds last
        → (word ≡ Quiet → IsQuiet program height last.spot.state last.spot.stage)
        → HoldsDeeds program height deeds word last.spot.state log
        → log.lines ≤ MOST_LOG
        → length log.steps ≤ log.lines
        → IsLegal program log }
    ensures written { (program : Parts) (height : ℕ) (deeds : List Deed) (last : Position)
        (word : EndWord) (bytes : List ℕ)
        → IsProgram program
        → IsHeight height
        → AreDeeds program height (start_of program) deeds last
        → (word ≡ Quiet → IsQuiet program height last.spot.state last.spot.stage)
        → TellRun program height deeds word last.spot.state bytes
        → length bytes ≤ MOST_LOG
        → (log : Log)
        × HasLog program bytes log
        × HoldsDeeds program height deeds word last.spot.state log
        × IsLegal program log
        × (length log.steps ≡ length deeds) }
{
    steps_lead_to_states();
    states_are_listings();
    logs_are_read_as_written();
}
