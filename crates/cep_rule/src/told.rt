// Instances that are told by a pattern and the values of its variables, and are not built.
ghost use Rattle.std.specs.Prelude.{◌≡◌, ◌↔◌, ◌<◌, ◌≤◌, ◌^◌, map, IsTrue, SomeIff};
ghost use Rattle.cep_term.specs.Tree.{variable, atom_of, tree_of, trees_of, term_nodes, argument_nodes, term_depth, argument_depth, IsFit};
ghost use Rattle.cep_term.specs.Values.{term_instance, argument_instances};
ghost use Rattle.cep_rule.specs.Instances.{given, full_instance};

use cep_base::limits::{MOST_DEPTH, MOST_NODES};
use cep_term::laws::order_is_total;
use cep_term::{Args, Atom, Term, order_term};

// The value of the variable, and the variable itself if it has none.
fn value_of<'a>(values: &'a [Term], v: u32, unset: &'a Term) -> &'a Term
    requires { tree_of unset.now ≡ variable v }
    ensures { tree_of result.now ≡ term_instance (given (map tree_of values.now)) (variable v) }
{
    match values.get(v as usize) {
        Some(value) => value,
        None => unset,
    }
}

// Whether two terms are equal as trees.
fn is_same(one: &Term, other: &Term) -> bool
    ensures { IsTrue result ↔ (tree_of one.now ≡ tree_of other.now) }
{
    order_is_total();
    order_term(one, other).is_eq()
}

// Whether the term is the instance of the pattern.
#[cycle(is_instance)]
fn is_instance(t: &Term, pattern: &Term, values: &[Term]) -> bool
    ensures { IsTrue result ↔
        (tree_of t.now ≡ term_instance (given (map tree_of values.now)) (tree_of pattern.now)) }
{
    match pattern {
        Term::Var(v) => is_same(t, value_of(values, *v, pattern)),
        Term::App(c, args) => match t {
            Term::Var(_) => false,
            Term::App(d, others) => d == c && are_instances(others, args, values),
        },
    }
}

// Whether the arguments are the instances of the patterns.
#[cycle(is_instance)]
fn are_instances(args: &Args, patterns: &Args, values: &[Term]) -> bool
    ensures { IsTrue result ↔ (trees_of args.now
        ≡ argument_instances (given (map tree_of values.now)) (trees_of patterns.now)) }
{
    match patterns {
        Args::Nil => matches!(args, Args::Nil),
        Args::Cons(cell) => match args {
            Args::Nil => false,
            Args::Cons(other) => {
                is_instance(&other.first, &cell.first, values)
                    && are_instances(&other.rest, &cell.rest, values)
            }
        },
    }
}

// Whether two patterns have one instance, each by its own values.
#[cycle(same_instance)]
fn same_term(one: &Term, values: &[Term], other: &Term, others: &[Term]) -> bool
    ensures { IsTrue result ↔ (term_instance (given (map tree_of values.now)) (tree_of one.now)
        ≡ term_instance (given (map tree_of others.now)) (tree_of other.now)) }
{
    match one {
        Term::Var(v) => is_instance(value_of(values, *v, one), other, others),
        Term::App(c, args) => match other {
            Term::Var(w) => is_instance(value_of(others, *w, other), one, values),
            Term::App(d, rest) => c == d && same_args(args, values, rest, others),
        },
    }
}

// The same of arguments.
#[cycle(same_instance)]
fn same_args(one: &Args, values: &[Term], other: &Args, others: &[Term]) -> bool
    ensures { IsTrue result ↔
        (argument_instances (given (map tree_of values.now)) (trees_of one.now)
        ≡ argument_instances (given (map tree_of others.now)) (trees_of other.now)) }
{
    match one {
        Args::Nil => matches!(other, Args::Nil),
        Args::Cons(cell) => match other {
            Args::Nil => false,
            Args::Cons(other) => {
                same_term(&cell.first, values, &other.first, others)
                    && same_args(&cell.rest, values, &other.rest, others)
            }
        },
    }
}

/// Whether two atoms have one instance, each by its own values. No instance is built, and it takes no
/// memory.
pub fn same_instance(one: &Atom, values: &[Term], other: &Atom, others: &[Term]) -> bool
    ensures { IsTrue result ↔ (full_instance (map tree_of values.now) (atom_of one.now)
        ≡ full_instance (map tree_of others.now) (atom_of other.now)) }
{
    one.pred == other.pred && same_args(&one.args, values, &other.args, others)
}

// How many nodes the term has, unless they are too many for a number.
#[cycle(nodes)]
fn nodes_of(t: &Term) -> Option<u64>
    ensures { SomeIff result (term_nodes (tree_of t.now) < 2 ^ 64) (term_nodes (tree_of t.now)) }
{
    match t {
        Term::Var(_) => Some(1),
        Term::App(_, args) => nodes_among(args)?.checked_add(1),
    }
}

// How many nodes the arguments have.
#[cycle(nodes)]
fn nodes_among(args: &Args) -> Option<u64>
    ensures { SomeIff result
        (argument_nodes (trees_of args.now) < 2 ^ 64)
        (argument_nodes (trees_of args.now)) }
{
    match args {
        Args::Nil => Some(0),
        Args::Cons(cell) => nodes_of(&cell.first)?.checked_add(nodes_among(&cell.rest)?),
    }
}

// How many nodes the instance has.
#[cycle(nodes_by)]
fn nodes_by(t: &Term, values: &[Term]) -> Option<u64>
    ensures { let nodes = term_nodes
        (term_instance (given (map tree_of values.now)) (tree_of t.now)) in
        SomeIff result (nodes < 2 ^ 64) nodes }
{
    match t {
        Term::Var(v) => nodes_of(value_of(values, *v, t)),
        Term::App(_, args) => all_nodes_by(args, values)?.checked_add(1),
    }
}

// How many nodes the instances have together.
#[cycle(nodes_by)]
fn all_nodes_by(args: &Args, values: &[Term]) -> Option<u64>
    ensures { let made = argument_instances (given (map tree_of values.now)) (trees_of args.now) in
        let nodes = argument_nodes made in
        SomeIff result (nodes < 2 ^ 64) nodes }
{
    match args {
        Args::Nil => Some(0),
        Args::Cons(cell) => {
            let first = nodes_by(&cell.first, values)?;
            first.checked_add(all_nodes_by(&cell.rest, values)?)
        }
    }
}

// Whether the term has no more levels than these.
#[cycle(levels)]
fn is_within(t: &Term, levels: u64) -> bool
    ensures { IsTrue result ↔ (term_depth (tree_of t.now) ≤ levels) }
{
    match t {
        Term::Var(_) => levels >= 1,
        Term::App(_, args) => match levels.checked_sub(1) {
            None => false,
            Some(below) => are_within(args, below),
        },
    }
}

// Whether the arguments have no more levels than these.
#[cycle(levels)]
fn are_within(args: &Args, levels: u64) -> bool
    ensures { IsTrue result ↔ (argument_depth (trees_of args.now) ≤ levels) }
{
    match args {
        Args::Nil => true,
        Args::Cons(cell) => is_within(&cell.first, levels) && are_within(&cell.rest, levels),
    }
}

// Whether the instance has no more levels than these.
#[cycle(levels_by)]
fn is_within_by(t: &Term, values: &[Term], levels: u64) -> bool
    ensures { IsTrue result ↔
        (term_depth (term_instance (given (map tree_of values.now)) (tree_of t.now)) ≤ levels) }
{
    match t {
        Term::Var(v) => is_within(value_of(values, *v, t), levels),
        Term::App(_, args) => match levels.checked_sub(1) {
            None => false,
            Some(below) => are_within_by(args, values, below),
        },
    }
}

// Whether the instances have no more levels than these.
#[cycle(levels_by)]
fn are_within_by(args: &Args, values: &[Term], levels: u64) -> bool
    ensures { let made = argument_instances (given (map tree_of values.now)) (trees_of args.now) in
        IsTrue result ↔ (argument_depth made ≤ levels) }
{
    match args {
        Args::Nil => true,
        Args::Cons(cell) => {
            is_within_by(&cell.first, values, levels) && are_within_by(&cell.rest, values, levels)
        }
    }
}

/// Whether the instance of the atom is fit. It is not built, and this takes no memory.
pub fn is_fit(atom: &Atom, values: &[Term]) -> bool
    ensures { IsTrue result ↔ IsFit (full_instance (map tree_of values.now) (atom_of atom.now)) }
{
    match all_nodes_by(&atom.args, values) {
        None => false,
        Some(nodes) => { nodes < MOST_NODES && are_within_by(&atom.args, values, MOST_DEPTH - 1) }
    }
}
