// What a file declares, kind by kind, and the public call that joins all faults.
ghost use Rattle.std.specs.Prelude.{◌≡◌, ◌≤◌, length, IfOk};
ghost use Rattle.std.specs.List.{flat_map};
ghost use Rattle.cep_base.specs.declared.limits.TheConstants.{MOST_TEXT};
ghost use Rattle.cep_refusal.specs.First.{first_in, IsFirstOrNone};
ghost use Rattle.cep_source.specs.Items.{preds_of, cons_of, contexts_of, traces_of};
ghost use Rattle.cep_faults.specs.Faults.{argument_faults, predicate_faults, con_faults, context_faults, begin_faults, trace_faults};
ghost use Rattle.cep_faults.specs.Totals.{all_faults};
ghost use Rattle.cep_faults.specs.Misnamed.{Misnamed};

use crate::atoms::listed_fault;
use crate::limits::{argument_past, count_past, turns_past};
use crate::rules::{clauses_fault, rules_fault};
use crate::traces::total_fault;
use crate::uses::{use_fault, uses_fault};
use cep_parse::{RawStart, Span};
use cep_refusal::{Fault, FirstFault};
use cep_source::{Source, Space};
use std::alloc::AllocError;

// The first fault of the types of the arguments of a declaration.
fn argument_fault(source: &Source, args: &[Span]) -> Option<Fault>
    ensures { result ≡ first_in (argument_faults source.now args.now) }
{
    Fault::first_of(uses_fault(source, Space::Sorts, args), argument_past(args))
}

// The first fault of the declarations of predicates.
fn predicates_fault(source: &Source) -> Option<Fault>
    ensures { result ≡ first_in (flat_map (predicate_faults source.now) (preds_of source.now)) }
{
    let mut first = FirstFault::none();
    for pred in source.preds() {
        first.note(argument_fault(source, pred.args));
    }
    first.found()
}

// The first fault of the declarations of constructors.
fn cons_fault(source: &Source) -> Option<Fault>
    ensures { result ≡ first_in (flat_map (con_faults source.now) (cons_of source.now)) }
{
    let mut first = FirstFault::none();
    for con in source.cons() {
        first.note(argument_fault(source, con.args));
        first.note(use_fault(source, Space::Sorts, con.sort));
    }
    first.found()
}

// The first fault of the contexts.
fn contexts_fault(source: &Source) -> Result<Option<Fault>, AllocError>
    ensures { IfOk result (λ first. first
        ≡ first_in (flat_map (context_faults source.now) (contexts_of source.now))) }
{
    let mut first = FirstFault::none();
    for context in source.contexts() {
        let fault = listed_fault(source, false, context.atoms)?;
        first.note(fault);
    }
    Ok(first.found())
}

// The first fault of what a trace starts with.
fn begin_fault(source: &Source, start: &RawStart) -> Result<Option<Fault>, AllocError>
    ensures { IfOk result (λ first. first ≡ first_in (begin_faults source.now start.now)) }
{
    match start {
        RawStart::Named(name) => Ok(use_fault(source, Space::Contexts, *name)),
        RawStart::Listed(atoms) => listed_fault(source, true, atoms.as_slice()),
    }
}

// The first fault of the traces, but for their number and the size of a start state.
fn traces_fault(source: &Source) -> Result<Option<Fault>, AllocError>
    ensures { IfOk result (λ first. first
        ≡ first_in (flat_map (trace_faults source.now) (traces_of source.now))) }
{
    let mut first = FirstFault::none();
    for trace in source.traces() {
        first.note(use_fault(source, Space::Stages, trace.stage));
        let begin = begin_fault(source, trace.start)?;
        first.note(begin);
        first.note(turns_past(source.text(), trace.limit));
    }
    Ok(first.found())
}

// The first fault of a text, but for names that are declared again.
fn other_fault(source: &Source) -> Result<Option<Fault>, AllocError>
    requires { length source.now.text ≤ MOST_TEXT }
    ensures { IfOk result (λ first. first ≡ first_in (all_faults source.now)) }
{
    let rules = rules_fault(source)?;
    let clauses = clauses_fault(source)?;
    let contexts = contexts_fault(source)?;
    let traces = traces_fault(source)?;
    let total = total_fault(source)?;
    let mut first = FirstFault::none();
    first.note(predicates_fault(source));
    first.note(cons_fault(source));
    first.note(rules);
    first.note(clauses);
    first.note(contexts);
    first.note(uses_fault(source, Space::Stages, source.interactives()));
    first.note(traces);
    first.note(count_past(source));
    first.note(total);
    Ok(first.found())
}

/// The first fault of a text's names, or none: a name that is declared again, a use of a name that
/// goes nowhere or to another kind of thing, a wrong number of arguments, an atom that may not
/// stand where it does, a missing or a second `#trace`, or more of something than may be. The rules
/// are Ceptre's, and the limits and the order of faults this profile's.
pub fn name_fault(source: &Source) -> Result<Option<Fault>, AllocError>
    requires { length source.now.text ≤ MOST_TEXT }
    ensures { IfOk result (IsFirstOrNone (Misnamed source.now)) }
{
    let other = other_fault(source)?;
    Ok(Fault::first_of(source.twice(), other))
}
