//! Laws of rounds. Each function computes nothing, and its contract is the law.
ghost use Rattle.std.specs.Prelude.{◌≡◌, ◌+◌, ◌<◌, ℕ, Bool, true, false, List, [], ◌∷◌, ◌++◌, IsPermutation};
ghost use Rattle.std.specs.List.{AllByRecursion};
ghost use Rattle.std.specs.FinMap as finite;
ghost use Rattle.cep_term.specs.Tree.{AtomTree};
ghost use Rattle.cep_term.specs.Multiset.{Multiset, count_of, IsContained, IsBag};
ghost use Rattle.cep_rule.specs.declared.parts.Parts.{Parts};
ghost use Rattle.cep_rule.specs.declared.offer.Offer.{Offer};
ghost use Rattle.cep_rule.specs.State.{IsState};
ghost use Rattle.cep_rule.specs.Typing.{is_fact};
ghost use Rattle.cep_rule.specs.Offers.{Applies, IsInGroup};
ghost use Rattle.cep_rule.specs.Program.{IsProgram};
ghost use Rattle.cep_rule.specs.Stages.{own_group};
ghost use Rattle.cep_round.specs.RoundLaws.{RoundLaws};
ghost use Rattle.cep_round.specs.Rounds.{needs, used_with, used_after, all_need, AreAdmitted, admitted, Together, IsRound};
ghost use Rattle.cep_round.specs.Orders.{AreOffersDone, KeepHeights, MakesFitAtoms, LeavesRest, FitOnTheWay, AreMachineSteps};

use cep_rule::laws::{edits_are_steps, sides_are_bags, steps_lead_to_states, types_are_lawful};
use cep_term::laws::bags_are_lawful;

// What rounds rest on: what instances of rules are, and that steps are there and lead to states.
pub(crate) fn steps_are_lawful()
    ensures { RoundLaws }
{
    bags_are_lawful();
    types_are_lawful();
    sides_are_bags();
    edits_are_steps();
    steps_lead_to_states();
}

/// What all admitted offers need is contained in the state.
pub fn what_is_admitted_is_there()
    ensures { (program : Parts) (state : Multiset) (offers : List Offer) (flags : List Bool)
        → AreAdmitted program state finite.empty offers flags
        → IsContained (all_need program (admitted offers flags)) state }
{
    bags_are_lawful();
}

/// Offers that apply to a state and need together no more than it has can be done in every order,
/// if all that they make is fit. In every order each applies to the state that it finds, within
/// every height within which it applied before, and the last state is the one to which they lead
/// together.
pub fn rounds_can_be_done_in_every_order()
    ensures done { (program : Parts) (height : ℕ) (state : Multiset) (offers order : List Offer)
        → IsProgram program
        → IsState program.signature state
        → AllByRecursion (Applies program height state) offers
        → AllByRecursion (MakesFitAtoms program) offers
        → IsContained (all_need program offers) state
        → IsPermutation offers order
        → (last : Multiset) × AreOffersDone program height state order last }
    ensures heights { (program : Parts) (state : Multiset) (offers order : List Offer)
        → IsProgram program
        → IsContained (all_need program offers) state
        → IsPermutation offers order
        → KeepHeights program state order }
    ensures together { (program : Parts) (height : ℕ) (state last : Multiset)
        (offers order : List Offer)
        → IsProgram program
        → IsState program.signature state
        → IsContained (all_need program offers) state
        → IsPermutation offers order
        → AreOffersDone program height state order last
        → IsBag last × Together program offers state last }
{
    steps_are_lawful();
}

/// A round has one list of flags and leads to one state; and it leaves a rest alone, as a step
/// does.
pub fn one_state_after_a_round()
    ensures flags { (program : Parts) (state used : Multiset) (offers : List Offer)
        (one other : List Bool)
        → AreAdmitted program state used offers one
        → AreAdmitted program state used offers other
        → one ≡ other }
    ensures state { (program : Parts) (offers : List Offer) (old one other : Multiset)
        → IsBag one
        → IsBag other
        → Together program offers old one
        → Together program offers old other
        → one ≡ other }
    ensures rest { (program : Parts) (height : ℕ) (offers : List Offer) (old new : Multiset)
        → IsProgram program
        → IsState program.signature old
        → IsBag new
        → AllByRecursion (Applies program height old) offers
        → Together program offers old new
        → LeavesRest program offers old new }
{
    steps_are_lawful();
}

/// Offers of a stage's own group that are done one after another are steps of the machine, if all
/// that they make is fit and the states on the way fit; and the stage stays.
pub fn rounds_are_machine_steps()
    ensures { (program : Parts) (height stage : ℕ) (state last : Multiset) (order : List Offer)
        → IsProgram program
        → AllByRecursion (IsInGroup program (own_group stage)) order
        → AllByRecursion (MakesFitAtoms program) order
        → FitOnTheWay program height state order
        → AreOffersDone program height state order last
        → AreMachineSteps program height stage state order last }
{}

/// An offer that needs facts alone, all of which are there, is never blocked; one that needs, with
/// what is used, more copies of a linear atom than there are, is blocked.
pub fn copies_block_and_facts_do_not()
    ensures facts { (program : Parts) (state used : Multiset) (offer : Offer)
        → IsContained used state
        → IsContained (needs program offer) state
        → ((a : AtomTree) → is_fact program.signature a ≡ false
        → count_of (needs program offer) a ≡ 0)
        → IsContained (used_with program used offer) state }
    ensures copies { (program : Parts) (state used : Multiset) (offer : Offer) (a : AtomTree)
        → is_fact program.signature a ≡ false
        → count_of state a < count_of used a + count_of (needs program offer) a
        → ¬ IsContained (used_with program used offer) state }
{
    bags_are_lawful();
}

/// The whole of a round: of chosen offers that apply, those that are admitted can be done in every
/// order, if all that they make is fit, and wherever that leads is the state after the round.
pub fn rounds_are_lawful()
    ensures done { (program : Parts) (height : ℕ) (state : Multiset) (offers order : List Offer)
        (flags : List Bool)
        → IsProgram program
        → IsState program.signature state
        → AllByRecursion (Applies program height state) offers
        → AreAdmitted program state finite.empty offers flags
        → AllByRecursion (MakesFitAtoms program) (admitted offers flags)
        → IsPermutation (admitted offers flags) order
        → (last : Multiset) × AreOffersDone program height state order last }
    ensures last { (program : Parts) (height : ℕ) (state last : Multiset)
        (offers order : List Offer) (flags : List Bool)
        → IsProgram program
        → IsState program.signature state
        → AreAdmitted program state finite.empty offers flags
        → IsPermutation (admitted offers flags) order
        → AreOffersDone program height state order last
        → IsRound program offers flags state last }
{
    what_is_admitted_is_there();
    rounds_can_be_done_in_every_order();
}

/// One more offer is admitted or blocked by what is used after those before it; so flags are found
/// one after another.
pub fn flags_grow()
    ensures admitted { (program : Parts) (state used : Multiset) (offers : List Offer)
        (flags : List Bool) (offer : Offer)
        → AreAdmitted program state used offers flags
        → IsContained (used_with program (used_after program used offers flags) offer) state
        → AreAdmitted program state used (offers ++ offer ∷ []) (flags ++ true ∷ [])
        × (used_after program used (offers ++ offer ∷ []) (flags ++ true ∷ [])
        ≡ used_with program (used_after program used offers flags) offer) }
    ensures blocked { (program : Parts) (state used : Multiset) (offers : List Offer)
        (flags : List Bool) (offer : Offer)
        → AreAdmitted program state used offers flags
        → ¬ IsContained (used_with program (used_after program used offers flags) offer) state
        → AreAdmitted program state used (offers ++ offer ∷ []) (flags ++ false ∷ [])
        × (used_after program used (offers ++ offer ∷ []) (flags ++ false ∷ [])
        ≡ used_after program used offers flags) }
{}
