// Atoms of one side, one clause or one state, one after another.
ghost use Rattle.std.specs.Prelude.{◌≡◌, ◌∷◌, [], IfOk, OnOk};
ghost use Rattle.std.specs.List.{AllByRecursion};
ghost use Rattle.cep_parse.specs.Raw.{atoms_of};
ghost use Rattle.cep_base.specs.FirstNames.{names_among};
ghost use Rattle.cep_infer.specs.Heads.{AreAtomsBy};
ghost use Rattle.cep_infer.specs.Built.{AreBuilt};
ghost use Rattle.cep_infer.specs.Shapes.{IsFilled};

use crate::terms::read_atom;
use cep_parse::{RawAtom, RawElem};
use cep_rule::AtomList;
use cep_source::{AtomRef, Source, Variables};
use std::alloc::AllocError;

// Adds the atom that is written, before which so many blanks stand.
pub(crate) fn push_atom(
    source: &Source,
    variables: &Variables,
    raw: &RawAtom,
    blanks: &mut u64,
    atoms: &mut AtomList,
) -> Result<(), AllocError>
    requires { IsFilled raw.now }
    ensures { OnOk result (AreBuilt source.now (names_among variables.now.firsts)
        (raw.now ∷ []) blanks.old blanks.new atoms.old atoms.new) }
{
    let atom = read_atom(source, variables, blanks, AtomRef::of_raw(raw))?;
    atoms.push(atom)
}

// Adds the atoms that are written.
#[tactic(auto, using(crate::proofs::RulesInTurn::atom_filled))]
pub(crate) fn push_atoms(
    source: &Source,
    variables: &Variables,
    raws: &[RawAtom],
    blanks: &mut u64,
    atoms: &mut AtomList,
) -> Result<(), AllocError>
    requires { AllByRecursion IsFilled raws.now }
    ensures { OnOk result (AreBuilt source.now
        (names_among variables.now.firsts) raws.now blanks.old blanks.new atoms.old atoms.new) }
{
    for raw in raws {
        push_atom(source, variables, raw, blanks, atoms)?;
    }
    Ok(())
}

// The atoms that are written, before which so many blanks stand.
pub(crate) fn read_atoms(
    source: &Source,
    variables: &Variables,
    raws: &[RawAtom],
    blanks: u64,
) -> Result<AtomList, AllocError>
    requires { AllByRecursion IsFilled raws.now }
    ensures { IfOk result (λ atoms.
        AreAtomsBy source.now (names_among variables.now.firsts) blanks raws.now atoms) }
{
    let mut behind = blanks;
    let mut atoms = AtomList::new(source.alloc());
    push_atoms(source, variables, raws, &mut behind, &mut atoms)?;
    Ok(atoms)
}

// The atoms of a side, before which so many blanks stand.
#[tactic(auto, using(crate::proofs::RulesInTurn::elem_filled))]
pub(crate) fn read_side(
    source: &Source,
    variables: &Variables,
    side: &[RawElem],
    blanks: u64,
) -> Result<AtomList, AllocError>
    requires { AllByRecursion IsFilled (atoms_of side.now) }
    ensures { IfOk result (λ atoms.
        AreAtomsBy source.now (names_among variables.now.firsts) blanks (atoms_of side.now) atoms) }
{
    let mut behind = blanks;
    let mut atoms = AtomList::new(source.alloc());
    for elem in side {
        let Some(atom) = elem.atom() else {
            continue;
        };
        push_atom(source, variables, atom, &mut behind, &mut atoms)?;
    }
    Ok(atoms)
}
