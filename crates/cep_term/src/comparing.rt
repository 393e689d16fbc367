ghost use Rattle.std.specs.Prelude.{◌≡◌, ◌↔◌, IsTrue};
ghost use Rattle.cep_term.specs.Tree.{atom_of, tree_of, trees_of};
ghost use Rattle.cep_term.specs.Order.{atom_cmp, tree_cmp, trees_cmp};

use crate::term::{Args, Atom, Term};
use std::cmp::Ordering;

/// Whether the two atoms are equal as trees. It takes no memory.
pub fn same(a: &Atom, b: &Atom) -> bool
    ensures { IsTrue result ↔ (atom_of a.now ≡ atom_of b.now) }
{
    order(a, b).is_eq()
}

/// Compares two atoms by their predicate's number and then by their arguments from left to right;
/// if one list of arguments ends first, it is less. The order is this profile's. It is of ground
/// atoms; among others a variable stands before each other term. It takes no memory.
pub fn order(a: &Atom, b: &Atom) -> Ordering
    ensures { result ≡ atom_cmp (atom_of a.now) (atom_of b.now) }
{
    match a.pred.cmp(&b.pred) {
        Ordering::Equal => order_args(&a.args, &b.args),
        unequal => unequal,
    }
}

/// Compares two terms by their constructor's number and then by their arguments, as `order`.
#[cycle(order)]
pub fn order_term(a: &Term, b: &Term) -> Ordering
    ensures { result ≡ tree_cmp (tree_of a.now) (tree_of b.now) }
{
    match (a, b) {
        (Term::Var(v), Term::Var(w)) => v.cmp(w),
        (Term::Var(_), Term::App(_, _)) => Ordering::Less,
        (Term::App(_, _), Term::Var(_)) => Ordering::Greater,
        (Term::App(c, args), Term::App(d, others)) => match c.cmp(d) {
            Ordering::Equal => order_args(args, others),
            unequal => unequal,
        },
    }
}

// Compares two lists of arguments from left to right.
#[cycle(order)]
fn order_args(a: &Args, b: &Args) -> Ordering
    ensures { result ≡ trees_cmp (trees_of a.now) (trees_of b.now) }
{
    match (a, b) {
        (Args::Nil, Args::Nil) => Ordering::Equal,
        (Args::Nil, Args::Cons(_)) => Ordering::Less,
        (Args::Cons(_), Args::Nil) => Ordering::Greater,
        (Args::Cons(one), Args::Cons(other)) => match order_term(&one.first, &other.first) {
            Ordering::Equal => order_args(&one.rest, &other.rest),
            unequal => unequal,
        },
    }
}
