// The start state of a text.
ghost use Rattle.std.specs.Prelude.{◌≡◌, ◌&&◌, nat_lt, [], map, Contains, IfOk};
ghost use Rattle.std.specs.List.{AllByRecursion};
ghost use Rattle.std.specs.List.Sorted.{IsPermutation};
ghost use Rattle.cep_parse.specs.declared.raw.RawStart.TheVariants as start;
ghost use Rattle.cep_term.specs.Multiset.{gathered, count_of, once};
ghost use Rattle.cep_term.specs.Tree.{IsGroundAtom, atom_of};
ghost use Rattle.cep_source.specs.Items.{traces_of};
ghost use Rattle.cep_source.specs.Starts.{start_atoms};
ghost use Rattle.cep_source.specs.Kept.{trace_item};
ghost use Rattle.cep_base.specs.FirstNames.{names_among};
ghost use Rattle.cep_infer.specs.Heads.{AreAtomsBy};
ghost use Rattle.cep_infer.specs.Meaning.{IsStartBy, is_fact_by};
ghost use Rattle.cep_infer.specs.Resolved.{IsWellNamed};
ghost use Rattle.cep_infer.specs.Shapes.{IsFilled, AreFilled};

use crate::atoms::{push_atom, push_atoms, read_atoms};
use crate::left::is_fact;
use cep_parse::{RawAtom, RawStart};
use cep_rule::AtomList;
use cep_source::{Source, TraceRef, Variables};
use cep_term::laws::bags_are_lawful;
use cep_term::{Atom, Bag, order};
use std::alloc::{AllocError, Global};

// The atoms in braces, and those of the contexts for which they stand, each a copy.
fn read_listed(source: &Source, none: &Variables, raws: &[RawAtom]) -> Result<AtomList, AllocError>
    requires { AllByRecursion IsFilled (start_atoms source.now (start.Listed raws.now)) }
    ensures { IfOk result (λ atoms.
        AreAtomsBy source.now (names_among none.now.firsts) 0
        (start_atoms source.now (start.Listed raws.now)) atoms) }
{
    let mut blanks = 0;
    let mut atoms = AtomList::new(source.alloc());
    for raw in raws {
        if source.stands_for_context(raw) {
            let listed = source.listed(raw.name);
            push_atoms(source, none, listed, &mut blanks, &mut atoms)?;
            continue;
        }
        push_atom(source, none, raw, &mut blanks, &mut atoms)?;
    }
    Ok(atoms)
}

// The atoms of a start state, each a copy. They have no variables.
fn start_atoms(source: &Source, start: &RawStart) -> Result<AtomList, AllocError>
    requires { AllByRecursion IsFilled (start_atoms source.now start.now) }
    ensures { IfOk result (λ atoms.
        AreAtomsBy source.now [] 0 (start_atoms source.now start.now) atoms) }
{
    let none = Variables::unmet(source.alloc());
    match start {
        RawStart::Named(name) => read_atoms(source, &none, source.listed(*name), 0),
        RawStart::Listed(raws) => read_listed(source, &none, raws.as_slice()),
    }
}

// The start state of a trace.
pub(crate) fn read_start(source: &Source, trace: &TraceRef) -> Result<Bag, AllocError>
    requires named { IsWellNamed source.now }
    requires filled { AreFilled source.now }
    requires there { Contains (traces_of source.now) (trace_item trace.now) }
    ensures { IfOk result (λ start. IsStartBy source.now (trace_item trace.now) start) }
{
    bags_are_lawful();
    let atoms = start_atoms(source, trace.start)?;
    let rising = in_rising_order(source.alloc(), &atoms)?;
    add_all(source, &rising)
}

// The atoms, the least first.
fn in_rising_order<'a>(alloc: Global, atoms: &'a AtomList) -> Result<Vec<&'a Atom>, AllocError>
    ensures { IfOk result (λ rising.
        IsPermutation atoms.now (map (λ atom. atom_of atom.now) rising.items)) }
{
    let mut rising: Vec<&Atom> = atoms.as_slice().iter().collect(alloc)?;
    rising.sort_by(|one, other| order(one, other))?;
    Ok(rising)
}

// Whether the atom is a fact that is there.
fn is_repeated(source: &Source, bag: &Bag, atom: &Atom) -> bool
    ensures { result ≡ (is_fact_by source.now (atom_of atom.now) && nat_lt 0
        (count_of bag.now (atom_of atom.now))) }
{
    is_fact(source, atom) && bag.count(atom) > 0
}

// The multiset of ground atoms, each fact once. Where they rise, each comes after those that are
// there.
fn add_all(source: &Source, atoms: &[&Atom]) -> Result<Bag, AllocError>
    requires { AllByRecursion IsGroundAtom (map (λ atom. atom_of atom.now) atoms.now) }
    ensures { IfOk result (λ bag. bag
        ≡ once (is_fact_by source.now) (gathered (map (λ atom. atom_of atom.now) atoms.now))) }
{
    bags_are_lawful();
    let mut bag = Bag::new(source.alloc());
    for atom in atoms {
        if is_repeated(source, &bag, atom) {
            continue;
        }
        if bag.count(atom) == u32::MAX || bag.copies() == u64::MAX {
            // No memory holds so many atoms.
            return Err(AllocError);
        }
        bag.add(atom)?;
    }
    Ok(bag)
}
