// Whether instances are fit, told from the sizes of values and not built.
ghost use Rattle.std.specs.Prelude.{◌≡◌, length, IfOk, MatchOption};
ghost use Rattle.std.specs.List.{AllByRecursion};
ghost use Rattle.cep_term.specs.Tree.{atom_of, IsAtomInRange, IsFit};
ghost use Rattle.cep_rule.specs.Instances.{full_instance, full_instances};
ghost use Rattle.cep_step.specs.Passing.{IsFirstUnfit};
ghost use Rattle.cep_step.specs.Sizes.{IsBeyond};

use crate::measured::Measured;
use cep_rule::{AtomList, Terms, instance};
use cep_term::Atom;
use std::alloc::{AllocError, Global};

/// The instance of the atom by these values, if it is fit: one that is not is never built. Each
/// variable needs to have a value. The limits of an atom are this profile's. Only out of memory is
/// refused.
pub fn fit_instance(alloc: Global, atom: &Atom, values: &Terms) -> Result<Option<Atom>, AllocError>
    requires { IsAtomInRange (length values.now) (atom_of atom.now) }
    ensures { IfOk result (λ found. MatchOption found
        (¬ IsFit (full_instance values.now (atom_of atom.now)))
        (λ a. IsFit (atom_of a) × (atom_of a ≡ full_instance values.now (atom_of atom.now)))) }
{
    let excess = Measured::new(alloc, values)?.size(atom).excess();
    match excess {
        Some(_) => Ok(None),
        None => Ok(Some(instance(alloc, atom, values)?)),
    }
}

// The number by which the first of these atoms whose instance is not fit is too large.
pub(crate) fn first_too_large(right: &AtomList, measured: &Measured) -> Option<u64>
    ensures { MatchOption result
        (AllByRecursion IsFit (full_instances measured.now.values.now right.now))
        (IsFirstUnfit IsBeyond (full_instances measured.now.values.now right.now)) }
{
    for i in 0..right.len() {
        if let Some(number) = measured.size(right.get(i)).excess() {
            return Some(number);
        }
    }
    None
}
