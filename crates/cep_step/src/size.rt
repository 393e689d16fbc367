// Sizes of terms.
ghost use Rattle.std.specs.Prelude.{◌≡◌, ◌⊎◌, ◌<◌, ◌≤◌, MatchOption};
ghost use Rattle.cep_base.specs.declared.limits.TheConstants.{MOST_DEPTH, MOST_NODES};
ghost use Rattle.cep_term.specs.Tree.{tree_of, trees_of};
ghost use Rattle.cep_step.specs.Sizes.{one_more, size_at, size_by, size_among};

use cep_base::limits::{MOST_DEPTH, MOST_NODES};
use cep_term::{Args, Term};

// How many nodes and levels a term or an atom has. A number is counted up to the last one that a
// counter holds, so that a value of any size can be measured.
#[derive(Clone, Copy)]
pub(crate) struct Size {
    pub(crate) nodes: u64,
    pub(crate) depth: u64,
}

impl Size {
    // The size of what has this below one node.
    pub(crate) fn under_one(self) -> Size
        ensures { result ≡ one_more self }
    {
        Size {
            nodes: self.nodes.saturating_add(1),
            depth: self.depth.saturating_add(1),
        }
    }

    // The number by which an atom of this size is not fit, if it is not.
    pub(crate) fn excess(self) -> Option<u64>
        ensures { MatchOption result ((self.nodes ≤ MOST_NODES) × (self.depth ≤ MOST_DEPTH))
            (λ number. ((MOST_NODES < self.nodes) × (number ≡ self.nodes))
            ⊎ ((self.nodes ≤ MOST_NODES) × (MOST_DEPTH < self.depth) × (number ≡ self.depth))) }
    {
        if self.nodes > MOST_NODES {
            Some(self.nodes)
        } else if self.depth > MOST_DEPTH {
            Some(self.depth)
        } else {
            None
        }
    }
}

// The size at the variable's place, and that of the variable itself where there is none.
fn variable_size(sizes: &[Size], v: u32) -> Size
    ensures { result ≡ size_at sizes.now v }
{
    match sizes.get(v as usize) {
        Some(size) => *size,
        None => Size { nodes: 1, depth: 1 },
    }
}

// The size of the term, where each variable has the size at its place.
#[cycle(size)]
pub(crate) fn term_size(term: &Term, sizes: &[Size]) -> Size
    ensures { result ≡ size_by sizes.now (tree_of term.now) }
{
    match term {
        Term::Var(v) => variable_size(sizes, *v),
        Term::App(_, args) => args_size(args, sizes).under_one(),
    }
}

// The size of the arguments together: their nodes, and the levels of the deepest one.
#[cycle(size)]
pub(crate) fn args_size(args: &Args, sizes: &[Size]) -> Size
    ensures { result ≡ size_among sizes.now (trees_of args.now) }
{
    match args {
        Args::Nil => Size { nodes: 0, depth: 0 },
        Args::Cons(cell) => {
            let first = term_size(&cell.first, sizes);
            let others = args_size(&cell.rest, sizes);
            Size {
                nodes: first.nodes.saturating_add(others.nodes),
                depth: first.depth.max(others.depth),
            }
        }
    }
}
