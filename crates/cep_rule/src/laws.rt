//! Laws of what programs mean, for the crates that rest on them. Each function computes nothing, and
//! its contract is the law.
ghost use Rattle.std.specs.Prelude.{◌≡◌, ◌↔◌, ◌⊎◌, ℕ, ◌+◌, ◌<◌, max, List, ◌++◌, Contains, true, false};
ghost use Rattle.std.specs.declared.cmp.Ordering.TheVariants.{Equal};
ghost use Rattle.std.specs.Cmp.{IsTotalOrder};
ghost use Rattle.std.specs.List.{AllByRecursion};
ghost use Rattle.cep_term.specs.Tree.{Tree, AtomTree, IsGroundAtom};
ghost use Rattle.cep_term.specs.Multiset.{Multiset, count_of, gathered, sum_of, difference_of, IsContained, IsBag, IsOnce, gained};
ghost use Rattle.cep_rule.specs.declared.signature.Signature.{Signature};
ghost use Rattle.cep_rule.specs.declared.rule.Rule.{Rule};
ghost use Rattle.cep_rule.specs.declared.parts.Parts.{Parts};
ghost use Rattle.cep_rule.specs.declared.offer.Offer.{Offer};
ghost use Rattle.cep_rule.specs.Patterns.{ClauseTree};
ghost use Rattle.cep_rule.specs.Typing.{AreValues, is_fact};
ghost use Rattle.cep_rule.specs.Binding.{needed_of};
ghost use Rattle.cep_rule.specs.Groundness.{Known, IsBad, SomeFails};
ghost use Rattle.cep_rule.specs.Instances.{full_instances, kept_of, left_of, right_of, taken_by, added_by, used_by};
ghost use Rattle.cep_rule.specs.Offers.{offer_cmp, Applies, AreOffers};
ghost use Rattle.cep_rule.specs.Derivations.{ProofTree, Proves};
ghost use Rattle.cep_rule.specs.Shapes.{IsProofOf, IsSmallTerm, HasSmallValues};
ghost use Rattle.cep_rule.specs.State.{IsState};
ghost use Rattle.cep_rule.specs.Step.{Step};
ghost use Rattle.cep_rule.specs.Steps.{MakesFit};
ghost use Rattle.cep_rule.specs.Matching.{state_after};
ghost use Rattle.cep_rule.specs.Program.{IsTypedRule, IsDividedRule, IsProgram};
ghost use Rattle.cep_rule.specs.TypeLaws.{TypeLaws};

use cep_term::laws::{bags_are_lawful, order_is_total};

/// A group has one list of offers in a state.
pub fn one_list_of_offers()
    ensures { (program : Parts) (height : ℕ) (state : Multiset) (group : ℕ) (one other : List Offer)
        → AreOffers program height state group one
        → AreOffers program height state group other
        → one ≡ other }
{
    order_is_total();
}

/// Of two offers one stands before the other, unless they are one.
pub fn offers_have_one_order()
    ensures total { IsTotalOrder offer_cmp }
    ensures ties { (one other : Offer) → offer_cmp one other ≡ Equal → one ≡ other }
{
    order_is_total();
}

/// A step by a rule with values for its variables leads from a state to one state. The rest that it
/// leaves alone is unique up to the facts of the left side, and is a state if the old state is one.
pub fn one_state_after_a_step()
    ensures state { (signature : Signature) (rule : Rule) (values : List Tree)
        (old one other : Multiset)
        → Step signature rule values old one
        → Step signature rule values old other
        → one ≡ other }
    ensures rest { (signature : Signature) (rule : Rule) (values : List Tree)
        (old one other : Multiset)
        (step : Step signature rule values old one) (step' : Step signature rule values old other)
        (a : AtomTree)
        → (0 < count_of (left_of signature rule values) a → is_fact signature a ≡ false)
        → count_of step.rest a ≡ count_of step'.rest a }
    ensures rest_is_state { (signature : Signature) (rule : Rule) (values : List Tree)
        (old new : Multiset) (step : Step signature rule values old new)
        → IsState signature old
        → IsState signature step.rest }
{
    bags_are_lawful();
}

/// If a state contains the left side, it has each atom that the rule needs; and the linear ones
/// among them, none of which is a fact, can be taken from it.
pub fn what_is_needed_is_there()
    ensures needed { (signature : Signature) (rule : Rule) (values : List Tree) (state : Multiset)
        (a : AtomTree)
        → IsContained (left_of signature rule values) state
        → Contains (full_instances values (needed_of rule)) a
        → 0 < count_of state a }
    ensures contained { (signature : Signature) (rule : Rule) (values : List Tree)
        (old new : Multiset)
        → Step signature rule values old new
        → IsContained (left_of signature rule values) old }
    ensures taken { (signature : Signature) (rule : Rule) (values : List Tree) (state : Multiset)
        → IsContained (left_of signature rule values) state
        → IsContained (gathered (taken_by signature rule values)) state }
    ensures no_facts { (signature : Signature) (rule : Rule) (values : List Tree) (a : AtomTree)
        → is_fact signature a ≡ true
        → count_of (gathered (taken_by signature rule values)) a ≡ 0 }
    ensures used { (signature : Signature) (rule : Rule) (values : List Tree) (state : Multiset)
        → IsContained (left_of signature rule values) state
        → IsContained (gathered (used_by signature rule values)) state }
    ensures no_facts_used { (signature : Signature) (rule : Rule) (values : List Tree)
        (a : AtomTree)
        → is_fact signature a ≡ true
        → count_of (gathered (used_by signature rule values)) a ≡ 0 }
{
    bags_are_lawful();
}

/// Taking the linear part of the left side from a state that contains that side, and adding the
/// instances of the right atoms and of the linear premises that are kept, is a step; and so is taking
/// what is used up, and adding the instances of the right atoms alone.
pub fn edits_are_steps()
    ensures lean { (signature : Signature) (rule : Rule) (values : List Tree) (state : Multiset)
        → IsTypedRule signature rule
        → AreValues signature.cons rule.kinds values
        → IsState signature state
        → IsContained (left_of signature rule values) state
        → Step signature rule values state (state_after signature state
        (gathered (used_by signature rule values)) (full_instances values rule.right)) }
    ensures whole { (signature : Signature) (rule : Rule) (values : List Tree) (state : Multiset)
        → IsTypedRule signature rule
        → AreValues signature.cons rule.kinds values
        → IsState signature state
        → IsContained (left_of signature rule values) state
        → Step signature rule values state (state_after signature state
        (gathered (taken_by signature rule values)) (added_by signature rule values)) }
{
    sides_are_bags();
    bags_are_lawful();
}

/// The state after an edit is the old one without what is taken, and with those of the added atoms
/// that it gains.
pub fn edits_gain()
    ensures { (signature : Signature) (state taken : Multiset) (added : List AtomTree)
        → IsBag state
        → IsOnce (is_fact signature) state
        → IsBag taken
        → AllByRecursion IsGroundAtom added
        → state_after signature state taken added ≡
        sum_of (difference_of state taken)
        (gathered (gained (is_fact signature) (difference_of state taken) added)) }
{
    bags_are_lawful();
}

/// An atom that is there after a step is of the right side, or was there before.
pub fn atoms_come_from_somewhere()
    ensures { (signature : Signature) (rule : Rule) (values : List Tree) (old new : Multiset)
        (a : AtomTree)
        → Step signature rule values old new
        → 0 < count_of new a
        → Contains (full_instances values (rule.right ++ kept_of signature rule)) a
        ⊎ (0 < count_of old a) }
{
    bags_are_lawful();
}

/// A step that makes fit atoms leads from a state to a state.
pub fn steps_lead_to_states()
    ensures { (signature : Signature) (rule : Rule) (values : List Tree) (old new : Multiset)
        → IsTypedRule signature rule
        → IsDividedRule signature rule
        → AreValues signature.cons rule.kinds values
        → IsState signature old
        → MakesFit rule values
        → Step signature rule values old new
        → IsState signature new }
{
    sides_are_bags();
    bags_are_lawful();
}

/// The variables of a well-typed atom have types, and values of the right types, which are as many,
/// make it a ground one that is well typed; and if the instance of a term is a value of its type,
/// so are the values of its variables.
pub fn types_are_lawful()
    ensures { TypeLaws }
{}

/// With values of the right types both sides of a well-typed rule are multisets of ground atoms.
pub fn sides_are_bags()
    ensures left { (signature : Signature) (rule : Rule) (values : List Tree)
        → IsTypedRule signature rule
        → AreValues signature.cons rule.kinds values
        → IsBag (left_of signature rule values) }
    ensures right { (signature : Signature) (rule : Rule) (values : List Tree)
        → IsTypedRule signature rule
        → AreValues signature.cons rule.kinds values
        → IsBag (right_of signature rule values) }
    ensures taken { (signature : Signature) (rule : Rule) (values : List Tree)
        → IsTypedRule signature rule
        → AreValues signature.cons rule.kinds values
        → AllByRecursion IsGroundAtom (taken_by signature rule values) }
    ensures added { (signature : Signature) (rule : Rule) (values : List Tree)
        → IsTypedRule signature rule
        → AreValues signature.cons rule.kinds values
        → AllByRecursion IsGroundAtom (added_by signature rule values) }
    ensures used { (signature : Signature) (rule : Rule) (values : List Tree)
        → IsTypedRule signature rule
        → AreValues signature.cons rule.kinds values
        → AllByRecursion IsGroundAtom (used_by signature rule values) }
    ensures made { (signature : Signature) (rule : Rule) (values : List Tree)
        → IsTypedRule signature rule
        → AreValues signature.cons rule.kinds values
        → AllByRecursion IsGroundAtom (full_instances values rule.right) }
{
    bags_are_lawful();
}

/// A derivation that proves an atom has the program's shape: so it can be written.
pub fn derivations_have_shape()
    ensures { (program : Parts) (proof : ProofTree) (a : AtomTree)
        → Proves program proof a
        → IsProofOf program proof }
{}

/// The values of an instance of a rule that applies to a state are small, and so are those of a
/// derivation that proves an atom: so they can be read back.
pub fn values_are_small()
    ensures offers { (program : Parts) (height : ℕ) (state : Multiset) (offer : Offer)
        → IsProgram program
        → IsState program.signature state
        → Applies program height state offer
        → AllByRecursion IsSmallTerm offer.values }
    ensures derivations { (program : Parts) (proof : ProofTree) (a : AtomTree)
        → IsProgram program
        → Proves program proof a
        → HasSmallValues proof }
{
    bags_are_lawful();
}

/// A pair that is bad is so too with fewer positions known: so with more known than in a
/// pair that is not bad, none is bad.
pub fn more_positions_known_are_no_worse()
    ensures { (clauses : List ClauseTree) (pred : ℕ) (few many : Known)
        → ((i : ℕ) → few i ≡ true → many i ≡ true)
        → IsBad clauses pred many
        → IsBad clauses pred few }
{}

/// A pair is bad if and only if a clause of its predicate fails by the bad pairs: so rounds can be
/// forgotten, and of a pair that is not bad each clause calls no bad pair and leaves no variable of
/// its head unknown.
pub fn bad_pairs_are_those_that_fail()
    ensures { (clauses : List ClauseTree) (pred : ℕ) (positions : Known)
        → (IsBad clauses pred positions ↔ SomeFails clauses (IsBad clauses) pred positions) }
{}
