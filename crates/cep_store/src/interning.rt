ghost use Rattle.std.specs.Prelude.{◌≡◌, slice_get, Some, IfOk, OnOk};
ghost use Rattle.cep_term.specs.Tree.{tree_of, trees_of, IsGround, AreGround};
ghost use Rattle.cep_store.specs.Held.{IsFrontOf, IsPartOf, IsPartAmong, AddsOnly};
ghost use Rattle.cep_store.specs.Keys.{terms_by, AreTermKeys, AddsIds};

use crate::keys::{Keys, key_behind};
use cep_term::{Args, Term};
use std::alloc::{AllocError, Global};

// The id of a ground term, which is added after its parts where it is not there. Its key is made
// behind a key that is begun, and goes again.
#[cycle(intern)]
fn intern_term(
    alloc: Global,
    terms: &mut Keys,
    t: &Term,
    key: &mut Vec<u64>,
) -> Result<u64, AllocError>
    requires known { IsGround (tree_of t.now) }
    requires keys { AreTermKeys terms.old }
    ensures id { IfOk result (λ id. slice_get (terms_by terms.new) id ≡ Some (tree_of t.now)) }
    ensures keys { AreTermKeys terms.new }
    ensures front { IsFrontOf (terms_by terms.old) (terms_by terms.new) }
    ensures only { AddsOnly (λ u. IsPartOf u (tree_of t.now)) (terms_by terms.old)
        (terms_by terms.new) }
    ensures begun { OnOk result (key.new.items ≡ key.old.items) }
{
    match t {
        Term::Var(_) => unreachable!(),
        Term::App(c, args) => {
            let begun = key.len();
            key.push(*c as u64)?;
            intern_args(alloc, terms, args, key)?;
            let id = terms.add(alloc, key_behind(key, begun));
            key.truncate(begun);
            id
        }
    }
}

// Adds the ids of the arguments to a key.
#[cycle(intern)]
pub(crate) fn intern_args(
    alloc: Global,
    terms: &mut Keys,
    args: &Args,
    key: &mut Vec<u64>,
) -> Result<(), AllocError>
    requires known { AreGround (trees_of args.now) }
    requires keys { AreTermKeys terms.old }
    ensures ids { OnOk result (AddsIds (terms_by terms.new) key.old.items key.new.items
        (trees_of args.now)) }
    ensures keys { AreTermKeys terms.new }
    ensures front { IsFrontOf (terms_by terms.old) (terms_by terms.new) }
    ensures only { AddsOnly (λ u. IsPartAmong u (trees_of args.now)) (terms_by terms.old)
        (terms_by terms.new) }
{
    match args {
        Args::Nil => Ok(()),
        Args::Cons(cell) => {
            let id = intern_term(alloc, terms, &cell.first, key)?;
            key.push(id)?;
            intern_args(alloc, terms, &cell.rest, key)
        }
    }
}
