ghost use Rattle.std.specs.Prelude.{◌≡◌, ◌+◌, ◌-◌, ◌^◌, ◌<◌, ◌≤◌, ◌&&◌, nat_lt, true, false, unwrap_or, map, IfOk, OnOk};
ghost use Rattle.cep_term.specs.Tree.{AtomTree, atom_of, IsGroundAtom};
ghost use Rattle.cep_term.specs.Multiset.{count_of, with_one, sum_of, copies_in, gained};
ghost use Rattle.std.specs.List.{AllByRecursion};
ghost use Rattle.cep_rule.specs.Typing.{is_fact};

use cep_rule::Signature;
use cep_term::laws::bags_are_lawful;
use cep_term::{Atom, AtomList, Bag, copy};
use std::alloc::{AllocError, Global};

/// Whether the atom is a fact. It takes no memory.
pub fn is_fact(signature: &Signature, a: &Atom) -> bool
    ensures { result ≡ is_fact signature.now (atom_of a.now) }
{
    match signature.preds.as_slice().get(a.pred as usize) {
        Some(pred) => pred.kind.is_of_facts(),
        None => false,
    }
}

/// Of ground atoms that are added to a state in this order, those that it gains: all but the facts
/// that it has, or that stand earlier. Only out of memory is refused.
pub fn gained(
    alloc: Global,
    signature: &Signature,
    state: &Bag,
    atoms: &AtomList,
) -> Result<AtomList, AllocError>
    requires { AllByRecursion IsGroundAtom atoms.now }
    ensures { IfOk result (λ list. list ≡ gained (is_fact signature.now) state.now atoms.now) }
{
    bags_are_lawful();
    let mut list = AtomList::new(alloc);
    let mut fresh = Bag::new(alloc);
    for i in 0..atoms.len() {
        let a = atoms.get(i);
        if !is_held(signature, state, &fresh, a) {
            hold(signature, &mut fresh, a)?;
            list.push(copy(alloc, a)?)?;
        }
    }
    Ok(list)
}

/// The same, or `None` where no fact is among the atoms: then the state gains all of them, and none is
/// copied. Only out of memory is refused.
pub fn gained_unless_all(
    alloc: Global,
    signature: &Signature,
    state: &Bag,
    atoms: &AtomList,
) -> Result<Option<AtomList>, AllocError>
    requires { AllByRecursion IsGroundAtom atoms.now }
    ensures { IfOk result (λ list. unwrap_or list atoms.now
        ≡ gained (is_fact signature.now) state.now atoms.now) }
{
    if !has_fact(signature, atoms.as_slice()) {
        return Ok(None);
    }
    Ok(Some(gained(alloc, signature, state, atoms)?))
}

// Whether one of the atoms is a fact.
fn has_fact(signature: &Signature, atoms: &[Atom]) -> bool
    ensures { result ≡ false
        → AllByRecursion (λ a. is_fact signature.now a ≡ false) (map atom_of atoms.now) }
{
    match atoms {
        [] => false,
        [a, rest @ ..] => is_fact(signature, a) || has_fact(signature, rest),
    }
}

// Whether the atom is a fact that is in either multiset.
fn is_held(signature: &Signature, state: &Bag, fresh: &Bag, a: &Atom) -> bool
    ensures { result ≡ (is_fact signature.now (atom_of a.now)
        && nat_lt 0 (count_of (sum_of state.now fresh.now) (atom_of a.now))) }
{
    bags_are_lawful();
    is_fact(signature, a) && (state.count(a) > 0 || fresh.count(a) > 0)
}

// Adds the atom if it is a fact.
fn hold(signature: &Signature, fresh: &mut Bag, a: &Atom) -> Result<(), AllocError>
    requires known { IsGroundAtom (atom_of a.now) }
    requires new { is_fact signature.now (atom_of a.now) ≡ true
        → count_of fresh.old (atom_of a.now) ≡ 0 }
    requires few { copies_in fresh.old < 2 ^ 64 - 1 }
    ensures held { OnOk result ((b : AtomTree) → is_fact signature.now b
        ≡ true → count_of fresh.new b ≡ count_of (with_one fresh.old (atom_of a.now)) b) }
    ensures few { OnOk result (copies_in fresh.new ≤ copies_in fresh.old + 1) }
{
    bags_are_lawful();
    if is_fact(signature, a) {
        fresh.add(a)?;
    }
    Ok(())
}
