ghost use Rattle.std.specs.Prelude.{◌≡◌, [], ◌∷◌, MatchOption};
ghost use Rattle.cep_parse.specs.Raw.{raw_nodes, atoms_in, start_listed};

use cep_base::{List, PredKind};

/// Bytes of the text, from a place up to another.
#[derive(Clone, Copy)]
pub struct Span {
    pub from: u32,
    pub to: u32,
}

/// What a term is: `_`, a variable, or a constructor with its arguments.
#[derive(Clone, Copy, PartialEq, Eq)]
pub enum RawKind {
    Blank,
    Var,
    App,
}

/// A term: its name, variable or `_`, and how many direct arguments it has, none but at `App`.
#[derive(Clone, Copy)]
pub struct RawNode {
    pub at: Span,
    pub kind: RawKind,
    pub args: u32,
}

/// An atom: its name, the number of its arguments, and these in prefix order: each term is its
/// own node, and after it stand the nodes of its arguments. Parentheses leave no node.
#[derive(Drop)]
pub struct RawAtom {
    pub name: Span,
    pub args: u32,
    pub nodes: RawNodes,
}

/// What stands between the `*` of a side. `()` leaves nothing.
#[derive(Drop)]
pub enum RawElem {
    Atom { kept: bool, atom: RawAtom },
    Qui(Span),
    Stage(Span),
}

impl RawElem {
    /// The atom that it is, if it is one.
    pub fn atom(&self) -> Option<&RawAtom>
        ensures { MatchOption result (atoms_in self.now ≡ [])
            (λ atom. atoms_in self.now ≡ atom.now ∷ []) }
    {
        match self {
            RawElem::Atom { atom, .. } => Some(atom),
            RawElem::Qui(_) | RawElem::Stage(_) => None,
        }
    }

    /// The nodes of the atom that it is, if it is one.
    pub fn nodes(&self) -> &[RawNode]
        ensures { result.now ≡ raw_nodes (atoms_in self.now) }
    {
        match self {
            RawElem::Atom { atom, .. } => atom.nodes.as_slice(),
            RawElem::Qui(_) | RawElem::Stage(_) => &[],
        }
    }
}

/// A rule: the place of its first token, its label, and its sides.
#[derive(Drop)]
pub struct RawRule {
    pub at: u32,
    pub label: Option<Span>,
    pub left: RawSide,
    pub right: RawSide,
}

/// The start state of a trace: a context's name, or atoms.
#[derive(Drop)]
pub enum RawStart {
    Named(Span),
    Listed(RawAtoms),
}

impl RawStart {
    /// The atoms that it lists.
    pub fn listed(&self) -> &[RawAtom]
        ensures { result.now ≡ start_listed self.now }
    {
        match self {
            RawStart::Named(_) => &[],
            RawStart::Listed(atoms) => atoms.as_slice(),
        }
    }
}

/// An item of a file. `Colon` is `x a : y.`, a constructor or a clause with a label: which of the
/// two, the declarations tell.
#[derive(Drop)]
pub enum RawItem {
    Sort {
        name: Span,
    },
    Pred {
        name: Span,
        args: Spans,
        kind: PredKind,
    },
    Colon {
        left: Span,
        args: Spans,
        right: Span,
    },
    Clause {
        label: Option<Span>,
        head: RawAtom,
        goals: RawAtoms,
    },
    Outer(RawRule),
    Stage {
        name: Span,
        rules: RawRules,
    },
    Context {
        name: Span,
        atoms: RawAtoms,
    },
    Interactive {
        name: Span,
    },
    Trace {
        at: u32,
        limit: Option<Span>,
        stage: Span,
        start: RawStart,
    },
}

pub type Spans = List<Span>;

pub type RawNodes = List<RawNode>;

pub type RawAtoms = List<RawAtom>;

pub type RawSide = List<RawElem>;

pub type RawRules = List<RawRule>;

pub type RawFile = List<RawItem>;
