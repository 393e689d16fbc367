// The atoms of a file, by where they stand.
ghost use Rattle.std.specs.Prelude.{◌≡◌, IfOk};
ghost use Rattle.std.specs.List.{flat_map};
ghost use Rattle.std.specs.Option.{option_map};
ghost use Rattle.cep_refusal.specs.First.{first_in};
ghost use Rattle.cep_source.specs.Items.{said};
ghost use Rattle.cep_source.specs.Kept.{atom_at, pred_item};
ghost use Rattle.cep_source.specs.Spaces.{pred_named};
ghost use Rattle.cep_faults.specs.Faults.{pred_faults, node_faults, names_faults, back_faults, linear_faults, clause_atom_faults, side_atom_faults, elem_faults, state_faults, listed_faults};

use crate::limits::unfit_fault;
use crate::uses::{arity_fault, lack_fault, use_fault, wrong};
use cep_base::PredKind;
use cep_parse::{RawAtom, RawElem, RawKind, RawNode};
use cep_refusal::{Fault, FirstFault, Reason};
use cep_source::{AtomRef, RawPred, Source, Space};
use std::alloc::AllocError;

// The fault of the predicate of an atom, which is declared so.
fn pred_fault(source: &Source, pred: Option<RawPred>, atom: AtomRef) -> Option<Fault>
    requires { option_map pred_item pred ≡ pred_named source.now (said source.now atom.name) }
    ensures { result ≡ first_in (pred_faults source.now (atom_at atom.entry)) }
{
    match pred {
        Some(pred) => arity_fault(pred.args.len(), atom.args, atom.name.from),
        None => lack_fault(source, atom.name),
    }
}

// The fault of a node: of a constructor, or, in a state, of a variable or a blank.
fn node_fault(source: &Source, of_state: bool, node: &RawNode) -> Option<Fault>
    ensures { result ≡ first_in (node_faults source.now of_state node.now) }
{
    if node.kind == RawKind::App {
        return match source.con(node.at) {
            Some(con) => arity_fault(con.args.len(), node.args, node.at.from),
            None => lack_fault(source, node.at),
        };
    }
    if !of_state {
        return None;
    }
    wrong(Reason::VarInContext, node.at.from)
}

// The first fault of the names that an atom uses, and, in a state, of its variables.
fn names_fault(
    source: &Source,
    of_state: bool,
    pred: Option<RawPred>,
    atom: AtomRef,
) -> Option<Fault>
    requires { option_map pred_item pred ≡ pred_named source.now (said source.now atom.name) }
    ensures { result ≡ first_in (names_faults source.now of_state (atom_at atom.entry)) }
{
    let mut first = FirstFault::none();
    first.note(pred_fault(source, pred, atom));
    for node in atom.nodes {
        first.note(node_fault(source, of_state, node));
    }
    first.found()
}

// A backward predicate where an atom becomes part of a state.
fn back_fault(source: &Source, pred: Option<RawPred>, atom: AtomRef) -> Option<Fault>
    requires { option_map pred_item pred ≡ pred_named source.now (said source.now atom.name) }
    ensures { result ≡ first_in (back_faults source.now (atom_at atom.entry)) }
{
    match pred?.kind {
        PredKind::Back => wrong(Reason::BwdInState, atom.name.from),
        PredKind::Linear | PredKind::Fact => None,
    }
}

// A predicate of states where an atom is part of a clause.
fn linear_fault(source: &Source, pred: Option<RawPred>, atom: AtomRef) -> Option<Fault>
    requires { option_map pred_item pred ≡ pred_named source.now (said source.now atom.name) }
    ensures { result ≡ first_in (linear_faults source.now (atom_at atom.entry)) }
{
    match pred?.kind {
        PredKind::Linear | PredKind::Fact => wrong(Reason::LinearInClause, atom.name.from),
        PredKind::Back => None,
    }
}

// The first fault of an atom of a clause, where no predicate is of states.
pub(crate) fn clause_atom_fault(source: &Source, atom: AtomRef) -> Option<Fault>
    ensures { result ≡ first_in (clause_atom_faults source.now (atom_at atom.entry)) }
{
    let pred = source.pred(atom.name);
    let names = names_fault(source, false, pred, atom);
    Fault::first_of(names, linear_fault(source, pred, atom))
}

// The first fault of an atom of a side, which a right side makes part of a state.
fn side_atom_fault(source: &Source, made: bool, atom: AtomRef) -> Option<Fault>
    ensures { result ≡ first_in (side_atom_faults source.now made (atom_at atom.entry)) }
{
    let pred = source.pred(atom.name);
    let names = names_fault(source, false, pred, atom);
    if made {
        Fault::first_of(names, back_fault(source, pred, atom))
    } else {
        names
    }
}

// The first fault of what stands on a side.
pub(crate) fn side_fault(source: &Source, made: bool, side: &[RawElem]) -> Option<Fault>
    ensures { result ≡ first_in (flat_map (elem_faults source.now made) side.now) }
{
    let mut first = FirstFault::none();
    for elem in side {
        first.note(match elem {
            RawElem::Atom { atom, .. } => side_atom_fault(source, made, AtomRef::of_raw(atom)),
            RawElem::Stage(name) => use_fault(source, Space::Stages, *name),
            RawElem::Qui(_) => None,
        });
    }
    first.found()
}

// The first fault of an atom of a state.
fn state_fault(source: &Source, atom: AtomRef) -> Result<Option<Fault>, AllocError>
    ensures { IfOk result (λ first. first
        ≡ first_in (state_faults source.now (atom_at atom.entry))) }
{
    let unfit = unfit_fault(source.alloc(), atom)?;
    let pred = source.pred(atom.name);
    let names = names_fault(source, true, pred, atom);
    let backward = back_fault(source, pred, atom);
    Ok(Fault::first_of(Fault::first_of(names, backward), unfit))
}

// The first fault of atoms that a context lists, or a trace in braces.
pub(crate) fn listed_fault(
    source: &Source,
    in_braces: bool,
    atoms: &[RawAtom],
) -> Result<Option<Fault>, AllocError>
    ensures { IfOk result (λ first. first
        ≡ first_in (flat_map (listed_faults source.now in_braces) atoms.now)) }
{
    let mut first = FirstFault::none();
    for atom in atoms {
        if in_braces && source.stands_for_context(atom) {
            continue;
        }
        let fault = state_fault(source, AtomRef::of_raw(atom))?;
        first.note(fault);
    }
    Ok(first.found())
}
