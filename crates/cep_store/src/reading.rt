ghost use Rattle.std.specs.Prelude.{◌≡◌, ◌<◌, length, slice_get, Some, IfOk};
ghost use Rattle.std.specs.List.{AllByRecursion};
ghost use Rattle.cep_term.specs.Tree.{tree_of, trees_of};
ghost use Rattle.cep_store.specs.Held.{args_by};
ghost use Rattle.cep_store.specs.Keys.{terms_by, AreTermKeys};

use crate::keys::{Keys, head_in, ids_in};
use cep_term::{Args, Term};
use std::alloc::{AllocError, Global};

// The term with this id.
#[cycle(read)]
pub(crate) fn read_term(alloc: Global, terms: &Keys, id: u64) -> Result<Term, AllocError>
    requires keys { AreTermKeys terms.now }
    requires there { id < length terms.now }
    ensures { IfOk result (λ t. slice_get (terms_by terms.now) id ≡ Some (tree_of t)) }
{
    let key = terms.get(id);
    let args = read_args(alloc, terms, ids_in(key))?;
    Ok(Term::App(head_in(key), args))
}

// The arguments with these ids.
#[cycle(read)]
pub(crate) fn read_args(alloc: Global, terms: &Keys, ids: &[u64]) -> Result<Args, AllocError>
    requires keys { AreTermKeys terms.now }
    requires there { AllByRecursion (λ id. id < length terms.now) ids.now }
    ensures { IfOk result (λ args. trees_of args ≡ args_by (terms_by terms.now) ids.now) }
{
    match ids.split_first() {
        None => Ok(Args::Nil),
        Some((id, rest)) => {
            let t = read_term(alloc, terms, *id)?;
            let rest = read_args(alloc, terms, rest)?;
            Args::cons(alloc, t, rest)
        }
    }
}
