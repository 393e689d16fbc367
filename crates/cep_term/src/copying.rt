ghost use Rattle.std.specs.Prelude.{◌≡◌, IfOk};
ghost use Rattle.cep_term.specs.Tree.{atom_of, tree_of, trees_of};

use crate::term::{Args, Atom, Term};
use std::alloc::{AllocError, Global};

/// An atom that is the same tree. Only out of memory is refused.
pub fn copy(alloc: Global, a: &Atom) -> Result<Atom, AllocError>
    ensures { IfOk result (λ other. atom_of other ≡ atom_of a.now) }
{
    Ok(Atom {
        pred: a.pred,
        args: copy_args(alloc, &a.args)?,
    })
}

/// A term that is the same tree. Only out of memory is refused.
#[cycle(copy)]
pub fn copy_term(alloc: Global, t: &Term) -> Result<Term, AllocError>
    ensures { IfOk result (λ other. tree_of other ≡ tree_of t.now) }
{
    match t {
        Term::Var(v) => Ok(Term::Var(*v)),
        Term::App(c, args) => {
            let args = copy_args(alloc, args)?;
            Ok(Term::App(*c, args))
        }
    }
}

// Arguments that are the same trees.
#[cycle(copy)]
fn copy_args(alloc: Global, args: &Args) -> Result<Args, AllocError>
    ensures { IfOk result (λ others. trees_of others ≡ trees_of args.now) }
{
    match args {
        Args::Nil => Ok(Args::Nil),
        Args::Cons(cell) => {
            let first = copy_term(alloc, &cell.first)?;
            let rest = copy_args(alloc, &cell.rest)?;
            Args::cons(alloc, first, rest)
        }
    }
}
