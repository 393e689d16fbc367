//! Laws of reorderings. Each function computes nothing, and its contract is the law.
ghost use Rattle.std.specs.Prelude.{◌≡◌, ◌↔◌, ◌⊎◌, ℕ, List, map};
ghost use Rattle.cep_rule.specs.declared.parts.Parts.{Parts};
ghost use Rattle.cep_rule.specs.Steps.{Spot, start_spot};
ghost use Rattle.cep_rule.specs.Program.{IsProgram};
ghost use Rattle.cep_log.specs.declared.log.Log.{Log};
ghost use Rattle.cep_log.specs.declared.log.LogStep.{LogStep};
ghost use Rattle.cep_log.specs.Legal.{IsLegal, AreLegalSteps};
ghost use Rattle.cep_log.specs.Written.{IsRenewal};
ghost use Rattle.cep_order.specs.declared.step_cause.StepCause.{StepCause};
ghost use Rattle.cep_order.specs.Orders.{NamesEarlier, IsOrderBy};
ghost use Rattle.cep_cause.specs.CauseLaws.{CauseLaws};
ghost use Rattle.cep_cause.specs.StepwiseLaws.{StepwiseLaws};
ghost use Rattle.cep_cause.specs.Tokens.{start_tokens, token_state};
ghost use Rattle.cep_cause.specs.Touches.{Touch, present_after_all, AreTouchesOf};
ghost use Rattle.cep_cause.specs.Reorderings.{IsReordering, IsOrder};
ghost use Rattle.cep_cause.specs.Graphs.{AreCauses};
ghost use Rattle.cep_cause.specs.declared.reordered.Reordered.{Reordered};
ghost use Rattle.cep_cause.specs.Reordered.{StandAt, written_places, unlisted, IsUnfitAt, IsInOrder, IsUnfitIn, AreLegalIn, IsRenewalIn, ComesTo};

use cep_log::laws::{logs_are_read_as_written, renewals_have_one_text, states_are_listings};
use cep_rule::laws::{
    derivations_have_shape, edits_are_steps, edits_gain, one_state_after_a_step, sides_are_bags,
    steps_lead_to_states, what_is_needed_is_there,
};
use cep_term::laws::bags_are_lawful;

// What reorderings rest on.
pub(crate) fn causes_are_lawful()
    ensures { CauseLaws }
{
    bags_are_lawful();
    what_is_needed_is_there();
    one_state_after_a_step();
    edits_are_steps();
    edits_gain();
    sides_are_bags();
    states_are_listings();
    steps_lead_to_states();
    derivations_have_shape();
}

// A legal log is renewed step by step: the lines of its first step, where that leads, are written
// after the lines of the start, and so on, and the lines of the end after all. If these are too long,
// or already some of them, no transcript is the log's in version 2.
pub(crate) fn logs_are_renewed_step_by_step()
    ensures { StepwiseLaws }
{
    causes_are_lawful();
    logs_are_read_as_written();
}

/// The steps of a legal log, done in an order that respects what they do to tokens, are legal one
/// after another and lead to the same last spot, unless one of them leads to a state that does not
/// fit.
pub fn reorderings_are_legal()
    ensures { (program : Parts) (log : Log) (touches : List Touch) (places : List ℕ)
        (steps : List LogStep)
        → IsProgram program
        → (legal : IsLegal program log)
        → AreTouchesOf program log touches
        → IsReordering touches places
        → StandAt log.steps places steps
        → AreLegalSteps program log.height (map unlisted steps) (start_spot program) legal.last
        ⊎ ((number : ℕ)
        × IsUnfitAt program log.height (start_spot program) (map unlisted steps) number) }
{
    causes_are_lawful();
}

/// A legal log can be done in each order that respects what its steps do to tokens, and told in
/// version 2: so there is a legal log of that, with the same start, the same last state and the same
/// end word, unless one of the steps leads to a state that does not fit.
pub fn reorderings_can_be_told()
    ensures { (program : Parts) (log : Log) (touches : List Touch) (places : List ℕ)
        → IsProgram program
        → IsLegal program log
        → AreTouchesOf program log touches
        → IsReordering touches places
        → ((new : Log) × IsRenewalIn program places log new)
        ⊎ ((number : ℕ) × IsUnfitIn program log places number) }
{
    causes_are_lawful();
}

/// Steps are legal from a spot on, or one of them is the first that leads to a state that does not
/// fit, and not both.
pub fn steps_come_to_one_outcome()
    ensures not_both { (program : Parts) (height : ℕ) (old last : Spot) (steps : List LogStep)
        (number : ℕ)
        → AreLegalSteps program height steps old last
        → ¬ IsUnfitAt program height old steps number }
    ensures one { (program : Parts) (height : ℕ) (old : Spot) (steps : List LogStep)
        (number number' : ℕ)
        → IsUnfitAt program height old steps number
        → IsUnfitAt program height old steps number'
        → number ≡ number' }
{
    causes_are_lawful();
}

/// Doing a log in an order comes to one answer: one text, the first step that leads to a state that
/// does not fit, or a text that is too long. So each answer comes exactly when it is the case.
pub fn orders_come_to_one_answer()
    ensures { (program : Parts) (log : Log) (places : List ℕ) (one other : Reordered)
        → ComesTo program places log one
        → ComesTo program places log other
        → one ≡ other }
{
    causes_are_lawful();
    renewals_have_one_text();
}

/// Each legal log touches tokens, in one way, and the tokens that are present after its steps are the
/// state where they lead.
pub fn logs_touch_tokens()
    ensures there { (program : Parts) (log : Log)
        → IsProgram program
        → IsLegal program log
        → (touches : List Touch) × AreTouchesOf program log touches }
    ensures one { (program : Parts) (log : Log) (one other : List Touch)
        → AreTouchesOf program log one
        → AreTouchesOf program log other
        → one ≡ other }
    ensures state { (program : Parts) (log : Log) (touches : List Touch)
        → IsProgram program
        → (legal : IsLegal program log)
        → AreTouchesOf program log touches
        → token_state (present_after_all (start_tokens program.start) touches)
        ≡ legal.last.state }
{
    causes_are_lawful();
}

/// If all its steps are legal in an order, a log in that order is legal, in version 1, and what that
/// is renewed to is the old one renewed in the order. The written order is one of the orders, and to
/// be renewed in it is to be renewed.
pub fn orders_can_be_renewed()
    ensures legal { (program : Parts) (log : Log) (touches : List Touch) (places : List ℕ)
        (other : Log)
        → IsLegal program log
        → AreTouchesOf program log touches
        → IsReordering touches places
        → AreLegalIn program log places
        → IsInOrder log places other
        → IsLegal program other }
    ensures renewed { (program : Parts) (log : Log) (places : List ℕ) (other new : Log)
        → IsInOrder log places other
        → IsRenewal program other new
        → IsRenewalIn program places log new }
    ensures written { (touches : List Touch) → IsReordering touches (written_places 0 touches) }
    ensures as_written { (program : Parts) (old new : Log)
        → (IsRenewal program old new ↔ IsRenewalIn program (written_places 0 old.steps) old new) }
{}

/// In the graph of a log the numbers in an entry are those of earlier steps, and the order that a
/// seed gives by it is an order of the steps that respects what they do to tokens.
pub fn orders_by_seeds_are_orders()
    ensures earlier { (touches : List Touch) (causes : List StepCause)
        → AreCauses touches causes
        → NamesEarlier causes }
    ensures order { (seed : ℕ) (touches : List Touch) (causes : List StepCause) (order : List ℕ)
        → AreCauses touches causes
        → IsOrderBy seed causes order
        → IsOrder touches order }
{}
