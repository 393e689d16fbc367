// The atoms that a step needs.
ghost use Rattle.std.specs.Prelude.{◌≡◌, length, IfOk};
ghost use Rattle.std.specs.List.{AllByRecursion};
ghost use Rattle.cep_term.specs.Tree.{IsAtomInRange};
ghost use Rattle.cep_rule.specs.Binding.{needed_of};
ghost use Rattle.cep_rule.specs.Instances.{full_instances};

use cep_rule::{AtomList, Rule, Terms, instance};
use std::alloc::{AllocError, Global};

// The instances of all premises that a state has, kept ones and facts included, in written order.
pub(crate) fn needed_atoms(
    alloc: Global,
    rule: &Rule,
    values: &Terms,
) -> Result<AtomList, AllocError>
    requires { AllByRecursion (IsAtomInRange (length values.now)) (needed_of rule.now) }
    ensures { IfOk result (λ atoms. atoms ≡ full_instances values.now (needed_of rule.now)) }
{
    let mut atoms = AtomList::new(alloc);
    for i in 0..rule.premises.len() {
        atoms.push(instance(alloc, &rule.premises.get(i).atom, values)?)?;
    }
    Ok(atoms)
}
