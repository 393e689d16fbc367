ghost use Rattle.std.specs.Prelude.{◌≡◌, length, IfOk};
ghost use Rattle.cep_term.specs.Tree.{atom_of, tree_of, trees_of, IsInRange, AreInRange, IsAtomInRange};
ghost use Rattle.cep_term.specs.Values.{term_instance, argument_instances};
ghost use Rattle.cep_rule.specs.Instances.{given, full_instance};

use cep_term::{Args, Atom, Term, Terms, copy_term};
use std::alloc::{AllocError, Global};

/// The atom with each variable replaced by the value at its place, as Ceptre's rules are
/// instantiated. Each variable needs to have a value. Only out of memory is refused.
pub fn instance(alloc: Global, atom: &Atom, values: &Terms) -> Result<Atom, AllocError>
    requires { IsAtomInRange (length values.now) (atom_of atom.now) }
    ensures { IfOk result (λ a. atom_of a ≡ full_instance values.now (atom_of atom.now)) }
{
    Ok(Atom {
        pred: atom.pred,
        args: args_by(alloc, &atom.args, values)?,
    })
}

// The term with each variable replaced by its value.
#[cycle(instance)]
fn term_by(alloc: Global, term: &Term, values: &Terms) -> Result<Term, AllocError>
    requires { IsInRange (length values.now) (tree_of term.now) }
    ensures { IfOk result (λ t. tree_of t ≡ term_instance (given values.now) (tree_of term.now)) }
{
    match term {
        Term::Var(v) => copy_term(alloc, values.get(*v as usize)),
        Term::App(c, args) => {
            let args = args_by(alloc, args, values)?;
            Ok(Term::App(*c, args))
        }
    }
}

// The arguments with each variable replaced by its value.
#[cycle(instance)]
fn args_by(alloc: Global, args: &Args, values: &Terms) -> Result<Args, AllocError>
    requires { AreInRange (length values.now) (trees_of args.now) }
    ensures { IfOk result
        (λ others. trees_of others ≡ argument_instances (given values.now) (trees_of args.now)) }
{
    match args {
        Args::Nil => Ok(Args::Nil),
        Args::Cons(cell) => {
            let first = term_by(alloc, &cell.first, values)?;
            let rest = args_by(alloc, &cell.rest, values)?;
            Args::cons(alloc, first, rest)
        }
    }
}
