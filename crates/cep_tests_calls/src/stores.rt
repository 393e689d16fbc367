// The ids of a store. The atoms are of the numbers in unary: the constructors are 0 for zero and 1 for
// the successor, and the predicate is 0.
ghost use Rattle.std.specs.Prelude.{◌≡◌, IfOk};
ghost use Rattle.cep_term.specs.Tree.{tree_of, trees_of, atom_of, IsGround, AreGround, IsGroundAtom};

use cep_store::Store;
use cep_term::{Args, Atom, Term, order_term, same};
use std::alloc::{AllocError, Global};
use std::test::Fail;

// The arguments of which there is one.
fn only(alloc: Global, t: Term) -> Result<Args, AllocError>
    requires { IsGround (tree_of t) }
    ensures { IfOk result (λ args. AreGround (trees_of args)) }
{
    Args::cons(alloc, t, Args::Nil)
}

// The number `z`.
fn zero(alloc: Global) -> Result<Term, AllocError>
    ensures { IfOk result (λ t. IsGround (tree_of t)) }
{
    Ok(Term::App(0, Args::Nil))
}

// The number `s z`.
fn one(alloc: Global) -> Result<Term, AllocError>
    ensures { IfOk result (λ t. IsGround (tree_of t)) }
{
    let args = only(alloc, zero(alloc)?)?;
    Ok(Term::App(1, args))
}

// The atom of a number.
fn num(alloc: Global, t: Term) -> Result<Atom, AllocError>
    requires { IsGround (tree_of t) }
    ensures { IfOk result (λ a. IsGroundAtom (atom_of a)) }
{
    Ok(Atom {
        pred: 0,
        args: only(alloc, t)?,
    })
}

// The id of `num (s z)`.
fn intern_one(alloc: Global, store: &mut Store) -> Result<u64, AllocError> {
    let a = num(alloc, one(alloc)?)?;
    store.intern(&a)
}

// The id of `num z`.
fn intern_zero(alloc: Global, store: &mut Store) -> Result<u64, AllocError> {
    let a = num(alloc, zero(alloc)?)?;
    store.intern(&a)
}

// The ids of `num (s z)`, twice, of `num z`, and of `num (s z)` again; and how many atoms and terms have one then.
fn ids_in_turn(alloc: Global) -> Result<([u64; 4], [u64; 2]), AllocError> {
    let mut store = Store::new(alloc);
    let ids = [
        intern_one(alloc, &mut store)?,
        intern_one(alloc, &mut store)?,
        intern_zero(alloc, &mut store)?,
        intern_one(alloc, &mut store)?,
    ];
    Ok((ids, [store.atoms(), store.terms()]))
}

#[test]
fn an_atom_has_one_id(rt: HostRuntime) -> Result<(), Fail> {
    let ([id, again, other, last], counts) = ids_in_turn(rt.alloc())?;
    assert!(rt; again == id && other != id && last == id);
    assert!(rt; counts == [2, 2]);
    Ok(())
}

// Whether the id is that of an atom, and reads `num (s z)`.
fn reads_atom(alloc: Global, store: &Store, id: u64) -> Result<bool, AllocError> {
    if store.atoms() <= id {
        return Ok(false);
    }
    let read = store.atom_of(alloc, id)?;
    let a = num(alloc, one(alloc)?)?;
    Ok(same(&read, &a))
}

// Whether the id is that of a term, and reads `s z`.
fn reads_term(alloc: Global, store: &Store, id: u64) -> Result<bool, AllocError> {
    if store.terms() <= id {
        return Ok(false);
    }
    let read = store.term_of(alloc, id)?;
    let t = one(alloc)?;
    Ok(order_term(&read, &t).is_eq())
}

// The first argument of an atom, by its id.
fn first_arg(store: &Store, id: u64) -> Result<u64, Fail> {
    if store.atoms() <= id || store.count_args(id) == 0 {
        return Err(Fail::from("no argument"));
    }
    Ok(store.arg_of(id, 0))
}

// A store of `num z` and `num (s z)`, and the id of the second.
fn filled(alloc: Global, store: &mut Store) -> Result<u64, AllocError> {
    intern_zero(alloc, store)?;
    intern_one(alloc, store)
}

#[test]
fn an_id_reads_its_atom_and_its_term(rt: HostRuntime) -> Result<(), Fail> {
    let mut store = Store::new(rt.alloc());
    let id = filled(rt.alloc(), &mut store)?;
    let arg = first_arg(&store, id)?;
    assert!(rt; reads_atom(rt.alloc(), &store, id)?);
    assert!(rt; reads_term(rt.alloc(), &store, arg)?);
    Ok(())
}
