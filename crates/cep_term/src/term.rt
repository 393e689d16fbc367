ghost use Rattle.std.specs.Prelude.{◌≡◌, IfOk};
ghost use Rattle.cep_term.specs.Tree.{more, tree_of, trees_of};

use std::alloc::{AllocError, Global};

/// A term: a variable by its number, or a constructor by its number with one term for each
/// argument. Ceptre's first-order terms.
#[derive(Drop)]
#[cycle(term)]
pub enum Term {
    Var(u32),
    App(u32, Args),
}

/// The arguments of a constructor or a predicate, in written order.
#[derive(Drop)]
#[cycle(term)]
pub enum Args {
    Nil,
    Cons(Box<ArgsCell>),
}

/// An argument, and those after it.
#[derive(Drop)]
#[cycle(term)]
pub struct ArgsCell {
    pub first: Term,
    pub rest: Args,
}

/// A predicate by its number, with one term for each argument. Ceptre's atoms; one without
/// variables may stand in a state.
pub struct Atom {
    pub pred: u32,
    pub args: Args,
}

impl Drop for Atom {
    fn drop(self) {
        let Atom { pred: _, args } = self;
        drop(args);
    }
}

impl Args {
    /// One argument before these. Only out of memory is refused.
    pub fn cons(alloc: Global, first: Term, rest: Args) -> Result<Args, AllocError>
        ensures { IfOk result (λ args. trees_of args ≡ more (tree_of first) (trees_of rest)) }
    {
        Ok(Args::Cons(Box::new(alloc, ArgsCell { first, rest })?))
    }
}
