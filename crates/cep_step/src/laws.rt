// The laws that the proofs of this crate rest on, gathered. The function computes nothing.
ghost use Rattle.cep_step.specs.StepLaws.{StepLaws};

use cep_rule::laws::{
    edits_are_steps, edits_gain, sides_are_bags, steps_lead_to_states, types_are_lawful,
    what_is_needed_is_there,
};
use cep_term::laws::bags_are_lawful;

// What instances of rules are, that edits are steps and what they gain, and that steps lead to
// states.
pub(crate) fn steps_are_lawful()
    ensures { StepLaws }
{
    bags_are_lawful();
    types_are_lawful();
    sides_are_bags();
    edits_are_steps();
    edits_gain();
    steps_lead_to_states();
    what_is_needed_is_there();
}
