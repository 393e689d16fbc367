//! The laws of matches and offers, for the crates that rest on them. Each function computes nothing,
//! and its contract is the law.
ghost use Rattle.std.specs.Prelude.{ℕ, List};
ghost use Rattle.cep_term.specs.Multiset.{Multiset};
ghost use Rattle.cep_rule.specs.declared.parts.Parts.{Parts};
ghost use Rattle.cep_rule.specs.declared.offer.Offer.{Offer};
ghost use Rattle.cep_rule.specs.State.{IsState};
ghost use Rattle.cep_rule.specs.Program.{IsProgram};
ghost use Rattle.cep_rule.specs.Offers.{AreOffers};
ghost use Rattle.cep_complete.specs.Found.{MetAreTyped, FoundApply};

use cep_prove::laws::answers_are_there;
use cep_rule::laws::{more_positions_known_are_no_worse, offers_have_one_order, types_are_lawful};
use cep_term::laws::{
    bags_are_lawful, instances_of_instances, matches_are_least, matching_is_lawful,
};

/// Each group has a list of offers in each state, within any height: so no state is without its
/// offers.
pub fn offers_are_there()
    ensures { (program : Parts) (height : ℕ) (state : Multiset) (group : ℕ)
        → IsProgram program
        → IsState program.signature state
        → (offers : List Offer) × AreOffers program height state group offers }
{
    answers_are_there();
    bags_are_lawful();
    matches_are_least();
    matching_is_lawful();
    instances_of_instances();
    types_are_lawful();
    more_positions_known_are_no_worse();
    offers_have_one_order();
}

/// Values that a match finds are of the types of their variables.
pub fn found_values_are_typed()
    ensures met { MetAreTyped }
    ensures apply { FoundApply }
{
    bags_are_lawful();
    types_are_lawful();
}
