// The open parentheses of an atom.
use cep_base::Stack;

/// An open parenthesis round a term.
#[derive(Clone, Copy)]
pub(crate) enum Level {
    /// No term was read.
    Empty,
    /// A constructor, by its node, and so many arguments of it.
    Node { index: usize, args: u32 },
    /// A whole term.
    Whole,
}

/// The open parentheses, the innermost first.
pub(crate) type Levels = Stack<Level>;
