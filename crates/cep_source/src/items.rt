// What a file declares, item by item, and its atoms.
ghost use Rattle.std.specs.Prelude.{◌≡◌, slice_get};
ghost use Rattle.cep_source.specs.Kept.{atom_at};

use cep_base::PredKind;
use cep_parse::{RawAtom, RawNode, RawRule, RawStart, Span};

/// An atom by the span of its name, the number of its arguments, and its nodes.
#[derive(Clone, Copy, Drop)]
pub struct AtomRef<'a> {
    pub name: Span,
    pub args: u32,
    pub nodes: &'a [RawNode],
}

impl<'a> AtomRef<'a> {
    /// An atom of a raw file.
    pub fn of_raw(atom: &'a RawAtom) -> AtomRef<'a>
        ensures { atom_at result ≡ atom.now }
    {
        AtomRef {
            name: atom.name,
            args: atom.args,
            nodes: atom.nodes.as_slice(),
        }
    }
}

/// A constructor by the spans of its name, of its arguments' types, and of its own type.
#[derive(Clone, Copy, Drop)]
pub struct RawCon<'a> {
    pub name: Span,
    pub args: &'a [Span],
    pub sort: Span,
}

/// A predicate by the spans of its name and of its arguments' types, and of which kind it is.
#[derive(Clone, Copy, Drop)]
pub struct RawPred<'a> {
    pub name: Span,
    pub args: &'a [Span],
    pub kind: PredKind,
}

/// A clause: its head and its goals.
#[derive(Clone, Copy, Drop)]
pub struct ClauseRef<'a> {
    pub head: AtomRef<'a>,
    pub goals: &'a [RawAtom],
}

/// A context by the span of its name, and its atoms.
#[derive(Clone, Copy, Drop)]
pub struct RawContext<'a> {
    pub name: Span,
    pub atoms: &'a [RawAtom],
}

/// A rule, and the name of its stage where it stands in one.
#[derive(Clone, Copy, Drop)]
pub struct RuleRef<'a> {
    pub home: Option<Span>,
    pub raw: &'a RawRule,
}

/// A trace: the number of turns if it has one, its stage and its start state.
#[derive(Clone, Copy, Drop)]
pub struct TraceRef<'a> {
    pub at: u32,
    pub limit: Option<Span>,
    pub stage: Span,
    pub start: &'a RawStart,
}

/// The item at a place, from 0.
pub fn item_at<T: Copy>(items: &[T], i: usize) -> Option<T>
    ensures { result ≡ slice_get items.now i }
{
    items.get(i).copied()
}
