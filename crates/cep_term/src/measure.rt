ghost use Rattle.std.specs.Prelude.{◌≡◌, ◌<◌, ◌^◌};
ghost use Rattle.cep_term.specs.Tree.{atom_of, tree_of, trees_of, atom_nodes, term_nodes, argument_nodes, atom_depth, term_depth, argument_depth};

use crate::term::{Args, Atom, Term};

/// How many nodes the atom has: its predicate, its constructors and its variables, each place
/// counted. The measure is this profile's. It takes no memory.
pub fn nodes(a: &Atom) -> u64
    requires { atom_nodes (atom_of a.now) < 2 ^ 64 }
    ensures { result ≡ atom_nodes (atom_of a.now) }
{
    1 + args_nodes(&a.args)
}

// How many nodes the term has.
#[cycle(nodes)]
fn term_nodes(t: &Term) -> u64
    requires { term_nodes (tree_of t.now) < 2 ^ 64 }
    ensures { result ≡ term_nodes (tree_of t.now) }
{
    match t {
        Term::Var(_) => 1,
        Term::App(_, args) => 1 + args_nodes(args),
    }
}

// How many nodes the arguments have together.
#[cycle(nodes)]
fn args_nodes(args: &Args) -> u64
    requires { argument_nodes (trees_of args.now) < 2 ^ 64 }
    ensures { result ≡ argument_nodes (trees_of args.now) }
{
    match args {
        Args::Nil => 0,
        Args::Cons(cell) => term_nodes(&cell.first) + args_nodes(&cell.rest),
    }
}

/// How many levels the atom has: 1 without arguments, and else one more than its deepest argument;
/// a variable is one level. The measure is this profile's. It takes no memory.
pub fn depth(a: &Atom) -> u64
    requires { atom_depth (atom_of a.now) < 2 ^ 64 }
    ensures { result ≡ atom_depth (atom_of a.now) }
{
    1 + args_depth(&a.args)
}

// How many levels the term has.
#[cycle(depth)]
fn term_depth(t: &Term) -> u64
    requires { term_depth (tree_of t.now) < 2 ^ 64 }
    ensures { result ≡ term_depth (tree_of t.now) }
{
    match t {
        Term::Var(_) => 1,
        Term::App(_, args) => 1 + args_depth(args),
    }
}

// How many levels the deepest argument has, and 0 if there is none.
#[cycle(depth)]
fn args_depth(args: &Args) -> u64
    requires { argument_depth (trees_of args.now) < 2 ^ 64 }
    ensures { result ≡ argument_depth (trees_of args.now) }
{
    match args {
        Args::Nil => 0,
        Args::Cons(cell) => term_depth(&cell.first).max(args_depth(&cell.rest)),
    }
}
