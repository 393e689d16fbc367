// The atoms of a rule's sides under values.
ghost use Rattle.std.specs.Prelude.{◌≡◌, ◌∷◌, [], ◌++◌, ◌||◌, if◌then◌else◌, not, length, IfOk, OnOk};
ghost use Rattle.std.specs.List.{AllByRecursion};
ghost use Rattle.cep_term.specs.Tree.{atom_of, IsAtomInRange};
ghost use Rattle.cep_rule.specs.Binding.{needed_of};
ghost use Rattle.cep_rule.specs.Instances.{full_instance, full_instances, used_by};
ghost use Rattle.cep_rule.specs.Typing.{is_fact};

use cep_offer::is_fact;
use cep_rule::{AtomList, Premise, Rule, Signature, Terms, instance};
use cep_term::Atom;
use std::alloc::{AllocError, Global};

// The instances of the linear premises that are not kept, in written order.
pub(crate) fn used_atoms(
    alloc: Global,
    signature: &Signature,
    rule: &Rule,
    values: &Terms,
) -> Result<AtomList, AllocError>
    requires { AllByRecursion (IsAtomInRange (length values.now)) (needed_of rule.now) }
    ensures { IfOk result (λ atoms. atoms ≡ used_by signature.now rule.now values.now) }
{
    let mut atoms = AtomList::new(alloc);
    for i in 0..rule.premises.len() {
        let premise = rule.premises.get(i);
        let used = is_used(signature, premise);
        push_if(alloc, used, &premise.atom, values, &mut atoms)?;
    }
    Ok(atoms)
}

// The instances of the right atoms, in written order.
pub(crate) fn made_atoms(alloc: Global, rule: &Rule, values: &Terms) -> Result<AtomList, AllocError>
    requires { AllByRecursion (IsAtomInRange (length values.now)) rule.now.right }
    ensures { IfOk result (λ atoms. atoms ≡ full_instances values.now rule.now.right) }
{
    let mut atoms = AtomList::new(alloc);
    for i in 0..rule.right.len() {
        push_instance(alloc, rule.right.get(i), values, &mut atoms)?;
    }
    Ok(atoms)
}

// Whether the premise is used up: it is not kept, and its atom is no fact.
fn is_used(signature: &Signature, premise: &Premise) -> bool
    ensures { result
        ≡ not (premise.now.kept || is_fact signature.now (atom_of premise.now.atom)) }
{
    !(premise.kept || is_fact(signature, &premise.atom))
}

// Adds the atom's instance where it is wanted, and nothing else.
fn push_if(
    alloc: Global,
    wanted: bool,
    atom: &Atom,
    values: &Terms,
    atoms: &mut AtomList,
) -> Result<(), AllocError>
    requires { IsAtomInRange (length values.now) (atom_of atom.now) }
    ensures { OnOk result (atoms.new ≡ atoms.old
        ++ full_instances values.now (if wanted then atom_of atom.now ∷ [] else [])) }
{
    if wanted {
        push_instance(alloc, atom, values, atoms)?;
    }
    Ok(())
}

// Adds the atom's instance.
fn push_instance(
    alloc: Global,
    atom: &Atom,
    values: &Terms,
    atoms: &mut AtomList,
) -> Result<(), AllocError>
    requires { IsAtomInRange (length values.now) (atom_of atom.now) }
    ensures { OnOk result (atoms.new ≡ atoms.old
        ++ full_instance values.now (atom_of atom.now) ∷ []) }
{
    atoms.push(instance(alloc, atom, values)?)
}
