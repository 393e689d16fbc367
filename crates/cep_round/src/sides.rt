// The atoms of both sides of an offer.
ghost use Rattle.std.specs.Prelude.{◌≡◌, ◌++◌, ◌≤◌, ◌+◌, ◌||◌, length, map, OnOk, IfOk};
ghost use Rattle.std.specs.List.{AllByRecursion};
ghost use Rattle.cep_base.specs.declared.limits.TheConstants.{MOST_PREMISES, MOST_RIGHT};
ghost use Rattle.cep_term.specs.Tree.{atom_of, IsAtomInRange};
ghost use Rattle.cep_rule.specs.Binding.{needed_of};
ghost use Rattle.cep_rule.specs.Instances.{full_instances, kept_of};
ghost use Rattle.cep_rule.specs.Typing.{is_fact};
ghost use Rattle.cep_round.specs.Sides.{needed_by, given_by, IsOfProgram};

use crate::laws::steps_are_lawful;
use cep_offer::is_fact;
use cep_rule::{AtomList, Offer, Premise, Program, Rule, Signature, Terms, instance};
use std::alloc::{AllocError, Global};

// Adds the atoms that the offer needs.
pub(crate) fn push_needed(
    alloc: Global,
    program: &Program,
    offer: &Offer,
    atoms: &mut AtomList,
) -> Result<(), AllocError>
    requires { IsOfProgram program.now offer.now }
    ensures { OnOk result (atoms.new ≡ atoms.old ++ needed_by program.now offer.now) }
{
    steps_are_lawful();
    let rule = program.parts().rules.get(offer.rule as usize);
    push_premises(alloc, rule, &offer.values, atoms)
}

// Adds the atoms that the offer gives: those that it makes, and those that stay.
pub(crate) fn push_given(
    alloc: Global,
    program: &Program,
    offer: &Offer,
    atoms: &mut AtomList,
) -> Result<(), AllocError>
    requires { IsOfProgram program.now offer.now }
    ensures { OnOk result (atoms.new ≡ atoms.old ++ given_by program.now offer.now) }
{
    steps_are_lawful();
    let parts = program.parts();
    let rule = parts.rules.get(offer.rule as usize);
    push_right(alloc, rule, &offer.values, atoms)?;
    push_kept(alloc, &parts.signature, rule, &offer.values, atoms)
}

// Adds the instances of all premises.
fn push_premises(
    alloc: Global,
    rule: &Rule,
    values: &Terms,
    atoms: &mut AtomList,
) -> Result<(), AllocError>
    requires { AllByRecursion (IsAtomInRange (length values.now)) (needed_of rule.now) }
    ensures { OnOk result (atoms.new
        ≡ atoms.old ++ full_instances values.now (needed_of rule.now)) }
{
    for i in 0..rule.premises.len() {
        atoms.push(instance(alloc, &rule.premises.get(i).atom, values)?)?;
    }
    Ok(())
}

// Adds the instances of the right atoms.
fn push_right(
    alloc: Global,
    rule: &Rule,
    values: &Terms,
    atoms: &mut AtomList,
) -> Result<(), AllocError>
    requires { AllByRecursion (IsAtomInRange (length values.now)) rule.now.right }
    ensures { OnOk result (atoms.new ≡ atoms.old ++ full_instances values.now rule.now.right) }
{
    for i in 0..rule.right.len() {
        atoms.push(instance(alloc, rule.right.get(i), values)?)?;
    }
    Ok(())
}

// Adds the instances of the premises that stay.
fn push_kept(
    alloc: Global,
    signature: &Signature,
    rule: &Rule,
    values: &Terms,
    atoms: &mut AtomList,
) -> Result<(), AllocError>
    requires { AllByRecursion (IsAtomInRange (length values.now)) (needed_of rule.now) }
    ensures { OnOk result (atoms.new
        ≡ atoms.old ++ full_instances values.now (kept_of signature.now rule.now)) }
{
    for i in 0..rule.premises.len() {
        let premise = rule.premises.get(i);
        if stays(signature, premise) {
            atoms.push(instance(alloc, &premise.atom, values)?)?;
        }
    }
    Ok(())
}

// Whether the premise stays: it is kept, or a fact.
fn stays(signature: &Signature, premise: &Premise) -> bool
    ensures { result
        ≡ (premise.now.kept || is_fact signature.now (atom_of premise.now.atom)) }
{
    premise.kept || is_fact(signature, &premise.atom)
}
