// Whether terms are values of types.
ghost use Rattle.std.specs.Prelude.{◌↔◌, [], map, IsTrue};
ghost use Rattle.cep_term.specs.Tree.{tree_of, trees_of, AreGround};
ghost use Rattle.cep_rule.specs.Typing.{HaveSorts, IsValue, AreValues};

use crate::signature::Cons;
use cep_term::{Args, Term};

// Whether the term is a value of the type.
#[cycle(values)]
fn is_value(cons: &Cons, sort: u32, t: &Term) -> bool
    ensures { IsTrue result ↔ IsValue cons.now sort (tree_of t.now) }
{
    match t {
        Term::Var(_) => false,
        Term::App(c, args) => {
            let c = *c as usize;
            if c >= cons.len() {
                return false;
            }
            let con = cons.get(c);
            con.sort == sort && are_arguments(cons, con.args.as_slice(), args)
        }
    }
}

// Whether the arguments are values of these types, one of each.
#[cycle(values)]
fn are_arguments(cons: &Cons, sorts: &[u32], args: &Args) -> bool
    ensures { IsTrue result ↔
        (AreGround (trees_of args.now) × HaveSorts cons.now [] sorts.now (trees_of args.now)) }
{
    match args {
        Args::Nil => sorts.is_empty(),
        Args::Cons(cell) => match sorts {
            [] => false,
            [sort, sorts @ ..] => is_value(cons, *sort, &cell.first)
                && are_arguments(cons, sorts, &cell.rest),
        },
    }
}

/// Whether the terms are values of these types, one of each. It takes no memory.
pub fn are_values(cons: &Cons, kinds: &[u32], values: &[Term]) -> bool
    ensures { IsTrue result ↔ AreValues cons.now kinds.now (map tree_of values.now) }
{
    match kinds {
        [] => values.is_empty(),
        [sort, kinds @ ..] => match values {
            [] => false,
            [t, values @ ..] => is_value(cons, *sort, t) && are_values(cons, kinds, values),
        },
    }
}
