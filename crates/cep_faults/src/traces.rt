// The traces of a file, and the size of a start state, in which a fact that is written again counts once.
ghost use Rattle.std.specs.Prelude.{◌≡◌, ◌≤◌, ◌++◌, ◌∷◌, [], map, length, List, IfOk, OnOk};
ghost use Rattle.cep_base.specs.declared.limits.TheConstants.{MOST_TEXT};
ghost use Rattle.cep_parse.specs.declared.raw.RawAtom.{RawAtom};
ghost use Rattle.cep_parse.specs.declared.raw.RawStart.TheVariants as start;
ghost use Rattle.cep_refusal.specs.First.{first_in};
ghost use Rattle.cep_source.specs.Items.{said, traces_of};
ghost use Rattle.cep_source.specs.Kept.{trace_item};
ghost use Rattle.cep_source.specs.Starts.{listed_in, start_atoms, counting};
ghost use Rattle.cep_faults.specs.Counted.{cut, written_size, total_size, others, nothing_counted, IsCountOf};
ghost use Rattle.cep_faults.specs.Totals.{start_faults, two_faults, traces_faults};

use crate::facts::{is_of_fact, key_of};
use crate::limits::start_past;
use cep_base::FirstNames;
use cep_parse::{RawAtom, RawStart, Span};
use cep_refusal::{Fault, FirstFault, Reason};
use cep_source::{Source, TraceRef};
use std::alloc::{AllocError, Global};

/// How many atoms there are, each a copy, and how many nodes they have.
#[derive(Clone, Copy, Drop)]
pub(crate) struct Size {
    pub copies: u64,
    pub nodes: u64,
}

const NONE: Size = Size {
    copies: 0,
    nodes: 0,
};

impl Size {
    // The size of two parts.
    fn and(self, other: Size) -> Size
        ensures { result ≡ cut (total_size self other) }
    {
        Size {
            copies: self.copies.saturating_add(other.copies),
            nodes: self.nodes.saturating_add(other.nodes),
        }
    }

    // The size of an atom, whatever its predicate.
    fn of_one(atom: &RawAtom) -> Size
        ensures { result ≡ cut (written_size (atom.now ∷ [])) }
    {
        Size {
            copies: 1,
            nodes: (atom.nodes.len() as u64).saturating_add(1),
        }
    }

    // The size of those atoms that are no facts.
    fn of_others(source: &Source, atoms: &[RawAtom]) -> Size
        ensures { result ≡ cut (written_size (others source.now atoms.now)) }
    {
        let mut size = NONE;
        for atom in atoms {
            if is_of_fact(source, atom) {
                continue;
            }
            size = size.and(Size::of_one(atom));
        }
        size
    }
}

/// What counts of the atoms so far: its size, its facts by their keys, and of each context that was
/// listed the size of its other atoms.
#[derive(Drop)]
pub(crate) struct Counted {
    pub size: Size,
    pub facts: FirstNames<Size>,
    pub contexts: FirstNames<Size>,
}

impl Counted {
    // Nothing. It takes no memory.
    fn nothing(alloc: Global) -> Counted
        ensures { result ≡ nothing_counted }
    {
        Counted {
            size: NONE,
            facts: FirstNames::none(alloc),
            contexts: FirstNames::none(alloc),
        }
    }

    // One atom more.
    fn note(&mut self, source: &Source, atom: &RawAtom) -> Result<(), AllocError>
        ensures { OnOk result ((before : List RawAtom) → IsCountOf source.now before self.old
            → IsCountOf source.now (before ++ atom.now ∷ []) self.new) }
    {
        if is_of_fact(source, atom) {
            let key = key_of(source, atom)?;
            let is_new = self.facts.add(key.bytes(), NONE)?;
            if !is_new {
                return Ok(());
            }
        }
        self.size = self.size.and(Size::of_one(atom));
        Ok(())
    }

    // The atoms of a context more. Where it was listed before, its facts count no more.
    fn note_context(&mut self, source: &Source, name: Span) -> Result<(), AllocError>
        ensures { OnOk result ((before : List RawAtom) → IsCountOf source.now before self.old
            → IsCountOf source.now (before
            ++ listed_in source.now (said source.now name)) self.new) }
    {
        if let Some(size) = self.contexts.under(source.said(name)) {
            self.size = self.size.and(size);
            return Ok(());
        }
        let atoms = source.listed(name);
        for atom in atoms {
            self.note(source, atom)?;
        }
        self.contexts
            .add(source.said(name), Size::of_others(source, atoms))?;
        Ok(())
    }

    // What atoms in braces list.
    fn note_braces(&mut self, source: &Source, atoms: &[RawAtom]) -> Result<(), AllocError>
        ensures { OnOk result ((before : List RawAtom) → IsCountOf source.now before self.old
            → IsCountOf source.now (before
            ++ start_atoms source.now (start.Listed atoms.now)) self.new) }
    {
        for atom in atoms {
            if source.stands_for_context(atom) {
                self.note_context(source, atom.name)?;
                continue;
            }
            self.note(source, atom)?;
        }
        Ok(())
    }
}

// The size of a start state.
fn size_of(source: &Source, start: &RawStart) -> Result<Size, AllocError>
    ensures { IfOk result (λ size. size
        ≡ cut (written_size (counting source.now (start_atoms source.now start.now)))) }
{
    let mut counted = Counted::nothing(source.alloc());
    match start {
        RawStart::Named(name) => counted.note_context(source, *name)?,
        RawStart::Listed(atoms) => counted.note_braces(source, atoms.as_slice())?,
    }
    Ok(counted.size)
}

// The fault of a start state that is too large.
fn large_fault(source: &Source, trace: &TraceRef) -> Result<Option<Fault>, AllocError>
    ensures { IfOk result (λ first. first
        ≡ first_in (start_faults source.now (trace_item trace.now))) }
{
    let size = size_of(source, trace.start)?;
    Ok(start_past(size, trace.at))
}

// The first fault of traces after the first one.
fn two_fault(traces: &[TraceRef]) -> Option<Fault>
    ensures { result ≡ first_in (two_faults (map trace_item traces.now)) }
{
    let mut first = FirstFault::none();
    for trace in traces {
        first.note(Some(Fault {
            reason: Reason::TwoTraces,
            at: trace.at,
        }));
    }
    first.found()
}

// The first fault of the traces: the first one's start state, each one after it, or that there is
// none.
pub(crate) fn total_fault(source: &Source) -> Result<Option<Fault>, AllocError>
    requires { length source.now.text ≤ MOST_TEXT }
    ensures { IfOk result (λ first. first
        ≡ first_in (traces_faults source.now (traces_of source.now))) }
{
    match source.traces().split_first() {
        Some((trace, rest)) => {
            let first = large_fault(source, trace)?;
            Ok(Fault::first_of(first, two_fault(rest)))
        }
        None => Ok(Some(Fault {
            reason: Reason::NoTrace,
            at: source.text().len() as u32,
        })),
    }
}
