// Terms and atoms, their matching and their multisets. The atoms are of the numbers in unary.
ghost use Rattle.std.specs.Prelude.{◌≡◌, ◌<◌, IfOk};
ghost use Rattle.cep_term.specs.Tree.{tree_of, trees_of, atom_of, variable, node, none, more, IsGroundAtom};

use crate::reading::{numbers, read_atom};
use cep_base::Steps;
use cep_rule::Program;
use cep_term::{Args, Atom, Bag, Binding, Term, meet};
use std::alloc::{AllocError, Global};
use std::marker::Brand;
use std::sync::ledger::{Blank, Ledger};
use std::test::Fail;

// The atom of a text of a program.
fn atom_in(alloc: Global, program: &Program, text: &str) -> Result<Atom, Fail>
    ensures { IfOk result (λ a. IsGroundAtom (atom_of a)) }
{
    match read_atom(alloc, program, text.as_bytes())? {
        Some(a) => Ok(a),
        None => Err(Fail::from("no atom")),
    }
}

// The atom of a text.
fn atom(alloc: Global, text: &str) -> Result<Atom, Fail>
    ensures { IfOk result (λ a. IsGroundAtom (atom_of a)) }
{
    let program = numbers(alloc)?;
    atom_in(alloc, &program, text)
}

// Adds a copy to a bag that is not full.
fn add_copy(bag: &mut Bag, a: &Atom) -> Result<(), Fail>
    requires { IsGroundAtom (atom_of a.now) }
{
    if bag.count(a) == u32::MAX || bag.copies() == u64::MAX {
        return Err(Fail::from("full"));
    }
    bag.add(a)?;
    Ok(())
}

// The bag of two copies of an atom.
fn two_of(alloc: Global, a: &Atom) -> Result<Bag, Fail>
    requires { IsGroundAtom (atom_of a.now) }
{
    let mut bag = Bag::new(alloc);
    add_copy(&mut bag, a)?;
    add_copy(&mut bag, a)?;
    Ok(bag)
}

// Whether there was a copy to take.
fn takes(bag: &mut Bag, a: &Atom) -> bool {
    bag.take(a).is_ok()
}

// Whether there are two copies of an atom, which can be taken, and then no third.
fn gives_two(bag: &mut Bag, a: &Atom) -> bool {
    bag.count(a) == 2 && takes(bag, a) && takes(bag, a) && bag.count(a) == 0 && !takes(bag, a)
}

#[test]
fn a_bag_counts_copies(rt: HostRuntime) -> Result<(), Fail> {
    let one = atom(rt.alloc(), "num (s z)")?;
    let mut bag = two_of(rt.alloc(), &one)?;
    assert!(rt; gives_two(&mut bag, &one));
    assert!(rt; bag.is_empty());
    Ok(())
}

// Arguments of which there is one.
fn only(alloc: Global, t: Term) -> Result<Args, AllocError>
    ensures { IfOk result (λ args. trees_of args ≡ more (tree_of t) none) }
{
    Args::cons(alloc, t, Args::Nil)
}

// The pattern `num (s N)`.
fn num_successor(alloc: Global) -> Result<Atom, AllocError>
    ensures { IfOk result (λ a. atom_of a
        ≡ record { pred = 1; args = more (node 1 (more (variable 0) none)) none }) }
{
    let args = only(alloc, Term::Var(0))?;
    let successor = Term::App(1, args);
    Ok(Atom {
        pred: 1,
        args: only(alloc, successor)?,
    })
}

// Whether the pattern `num (s N)` meets the atom, with these values of its one variable.
fn meets<L: Ledger>(
    alloc: Global,
    target: &Atom,
    values: &mut Binding,
    blank: Blank,
) -> Result<bool, Fail>
    requires known { IsGroundAtom (atom_of target.now) }
    requires name { blank.name ≡ L.name }
    requires parts { blank.parts ≡ L.parts }
    requires open { 0 < L.parts }
{
    let mut steps = Steps::<L>::new(blank);
    if values.len() != 1 {
        return Err(Fail::from("not one variable"));
    }
    Ok(meet(alloc, &num_successor(alloc)?, target, values, &mut steps)?)
}

// Whether the pattern meets the atom of a text.
fn meets_text(alloc: Global, text: &str, values: &mut Binding) -> Result<bool, Fail> {
    let target = atom(alloc, text)?;
    meets::<Brand>(alloc, &target, values, Blank::new(1))
}

// Once the pattern has met one, it meets no other number.
#[test]
fn a_pattern_meets_a_number(rt: HostRuntime) -> Result<(), Fail> {
    let mut values = Binding::empty(rt.alloc(), 1)?;
    for (text, is_met) in [
        ("num z", false),
        ("num (s z)", true),
        ("num (s (s z))", false),
        ("num (s z)", true),
    ] {
        assert!(rt; meets_text(rt.alloc(), text, &mut values)? == is_met);
    }
    Ok(())
}
