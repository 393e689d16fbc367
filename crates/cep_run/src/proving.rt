// What proves the backward premises of a step.
ghost use Rattle.std.specs.Prelude.{◌≡◌, ℕ, ◌+◌, ◌≤◌, List, length, map, slice_get, Some, IfOk, OnOk};
ghost use Rattle.std.specs.List.{AllByRecursion};
ghost use Rattle.cep_term.specs.Tree.{atom_of, tree_of, IsGround};
ghost use Rattle.cep_term.specs.Multiset.{Multiset};
ghost use Rattle.cep_term.specs.Values.{atom_instance, HasValues};
ghost use Rattle.cep_rule.specs.declared.rule.Rule.{Rule};
ghost use Rattle.cep_rule.specs.Limits.{IsHeight};
ghost use Rattle.cep_rule.specs.Instances.{given};
ghost use Rattle.cep_rule.specs.Derivations.{proof_of, IsDerivable};
ghost use Rattle.cep_rule.specs.Offers.{Applies};
ghost use Rattle.cep_prove.specs.Answers.{IsGoal};
ghost use Rattle.cep_run.specs.Turn.{IsProofWithin, ProveBacks};

use cep_base::Steps;
use cep_log::Proofs;
use cep_prove::answers;
use cep_rule::laws::{more_positions_known_are_no_worse, types_are_lawful};
use cep_rule::{Derivation, Offer, Program};
use cep_term::laws::instances_of_instances;
use cep_term::{Atom, Binding, Term, copy_term};
use std::alloc::{AllocError, Global};
use std::sync::ledger::Ledger;

/// A derivation of each backward premise of an offer that applies, in written order. The counter rises
/// by one for each.
pub fn prove_backs<L: Ledger>(
    alloc: Global,
    program: &Program,
    offer: &Offer,
    height: u32,
    steps: &mut Steps<L>,
) -> Result<Proofs, AllocError>
    requires height { IsHeight height }
    requires applies { (state : Multiset) × Applies program.now height state offer.now }
    ensures proved { IfOk result (ProveBacks program.now height offer.now) }
    ensures ticked { OnOk result
        ((rule : Rule) → slice_get program.now.rules offer.now.rule ≡ Some rule
        → steps.new ≡ steps.old + length rule.backs) }
    ensures counted { steps.old ≤ steps.new }
{
    types_are_lawful();
    more_positions_known_are_no_worse();
    let rule = program.parts().rules.get(offer.rule as usize);
    let mut proofs = Proofs::new(alloc);
    if rule.backs.is_empty() {
        return Ok(proofs);
    }
    let known = known_values(alloc, offer.values.as_slice())?;
    for i in 0..rule.backs.len() {
        let premise = rule.backs.get(i);
        proofs.push(prove(alloc, program, premise, &known, height, steps)?)?;
    }
    Ok(proofs)
}

// A derivation of a goal whose variables all have values.
fn prove<L: Ledger>(
    alloc: Global,
    program: &Program,
    goal: &Atom,
    known: &Binding,
    height: u32,
    steps: &mut Steps<L>,
) -> Result<Derivation, AllocError>
    requires goal { (kinds : List ℕ) × IsGoal program.now kinds (atom_of goal.now) known.now }
    requires height { IsHeight height }
    requires valued { HasValues known.now (atom_of goal.now) }
    requires derivable { IsDerivable program.now height
        (atom_instance known.now (atom_of goal.now)) }
    ensures proved { IfOk result (λ proof. IsProofWithin program.now height
        (atom_instance known.now (atom_of goal.now)) (proof_of proof)) }
    ensures ticked { steps.new ≡ steps.old + 1 }
{
    instances_of_instances();
    let mut list = answers(alloc, program, goal, known, height, steps)?;
    let answer = list.pop().unwrap();
    Ok(answer.proof)
}

// The variables with these values.
fn known_values(alloc: Global, values: &[Term]) -> Result<Binding, AllocError>
    requires { AllByRecursion IsGround (map tree_of values.now) }
    ensures { IfOk result (λ known. known ≡ given (map tree_of values.now)) }
{
    let mut copies = Vec::new(alloc);
    for value in values {
        copies.push(Some(copy_term(alloc, value)?))?;
    }
    Ok(Binding::of(copies))
}
