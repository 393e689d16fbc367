// All limits of numbers: what a file has too much of, and how much an atom of a state may be.
ghost use Rattle.std.specs.Prelude.{◌≡◌, [], ◌∷◌, ◌++◌, true, false, map, slice_get, IfOk, OnOk, IfSome, IfNone};
ghost use Rattle.std.specs.Option.{option_map};
ghost use Rattle.std.specs.List.{repeat};
ghost use Rattle.cep_refusal.specs.First.{first_in};
ghost use Rattle.cep_base.specs.declared.limits.TheConstants.{MOST_ARGUMENTS, MOST_BACKS, MOST_GOALS, MOST_PREMISES, MOST_VARIABLES};
ghost use Rattle.cep_source.specs.Kept.{atom_at};
ghost use Rattle.cep_faults.specs.Faults.{past, past_most, premise_faults, right_faults, turns_faults, unfit_faults};
ghost use Rattle.cep_faults.specs.Levels.{pending, is_shallow};
ghost use Rattle.cep_faults.specs.Totals.{count_faults, large_faults};

use crate::traces::Size;
use crate::uses::wrong;
use cep_base::limits::{
    MOST_ARGUMENTS, MOST_BACKS, MOST_CLAUSES, MOST_CONS, MOST_COPIES, MOST_DEPTH, MOST_GOALS,
    MOST_NODES, MOST_PREDS, MOST_PREMISES, MOST_RIGHT, MOST_RULES, MOST_STATE_NODES,
    MOST_VARIABLES,
};
use cep_parse::{RawAtom, RawElem, RawNode, Span};
use cep_refusal::{Fault, Reason};
use cep_source::{AtomRef, Source, Variables, item_at, turns_said};
use std::alloc::{AllocError, Global};

// The fault of the first one too many.
pub(crate) fn past(at: Option<u32>) -> Option<Fault>
    ensures { result ≡ first_in (past at) }
{
    let at = at?;
    wrong(Reason::OverLimit, at)
}

// The fault of the first argument of a declaration that is one too many.
pub(crate) fn argument_past(args: &[Span]) -> Option<Fault>
    ensures { result ≡ first_in (past_most (λ arg. arg.from) args.now MOST_ARGUMENTS) }
{
    past(item_at(args, MOST_ARGUMENTS).map(|arg| arg.from))
}

// The fault of the first goal of a clause that is one too many.
pub(crate) fn goal_past(goals: &[RawAtom]) -> Option<Fault>
    ensures { result ≡ first_in (past_most (λ goal. goal.name.from) goals.now MOST_GOALS) }
{
    past(goals.get(MOST_GOALS).map(|goal| goal.name.from))
}

// The fault of the first premise that is one too many, of those of states or the backward ones.
fn premise_past(source: &Source, back: bool, left: &[RawElem], most: usize) -> Option<Fault>
    ensures { result ≡ first_in (premise_faults source.now back left.now most) }
{
    let mut before = 0;
    for elem in left {
        let Some(atom) = elem.atom() else {
            continue;
        };
        let Some(kind) = source.kind(atom.name) else {
            continue;
        };
        if kind.is_backward() != back {
            continue;
        }
        if before == most {
            return past(Some(atom.name.from));
        }
        before += 1;
    }
    None
}

// The fault of the first premise of states that is one too many.
pub(crate) fn state_premise_past(source: &Source, left: &[RawElem]) -> Option<Fault>
    ensures { result ≡ first_in (premise_faults source.now false left.now MOST_PREMISES) }
{
    premise_past(source, false, left, MOST_PREMISES)
}

// The fault of the first backward premise that is one too many.
pub(crate) fn backward_past(source: &Source, left: &[RawElem]) -> Option<Fault>
    ensures { result ≡ first_in (premise_faults source.now true left.now MOST_BACKS) }
{
    premise_past(source, true, left, MOST_BACKS)
}

// The fault of the first atom of a right side that is one too many.
pub(crate) fn right_past(right: &[RawElem]) -> Option<Fault>
    ensures { result ≡ first_in (right_faults right.now) }
{
    let mut before = 0;
    for elem in right {
        let Some(atom) = elem.atom() else {
            continue;
        };
        if before == MOST_RIGHT {
            return past(Some(atom.name.from));
        }
        before += 1;
    }
    None
}

// The fault of the first variable that is one too many.
pub(crate) fn variable_past(variables: &Variables) -> Option<Fault>
    ensures { result ≡ first_in (past
        (option_map (λ at. at.from)
        (slice_get (map (λ entry. entry.1) variables.now.firsts) MOST_VARIABLES))) }
{
    past(variables.firsts.at(MOST_VARIABLES).map(|at| at.from))
}

// The fault of a number of turns.
pub(crate) fn turns_past(text: &[u8], limit: Option<Span>) -> Option<Fault>
    ensures { result ≡ first_in (turns_faults text.now limit) }
{
    let number = limit?;
    if turns_said(text, number).is_some() {
        return None;
    }
    past(Some(number.from))
}

// The fault of a start state of this size.
pub(crate) fn start_past(size: Size, at: u32) -> Option<Fault>
    ensures { result ≡ first_in (large_faults size at) }
{
    if size.copies > MOST_COPIES || size.nodes > MOST_STATE_NODES {
        return past(Some(at));
    }
    None
}

// The first declaration that is one too many of its kind.
pub(crate) fn count_past(source: &Source) -> Option<Fault>
    ensures { result ≡ first_in (count_faults source.now) }
{
    let pred = item_at(source.preds(), MOST_PREDS).map(|pred| pred.name.from);
    let con = item_at(source.cons(), MOST_CONS).map(|con| con.name.from);
    let rule = item_at(source.rules(), MOST_RULES).map(|rule| rule.raw.at);
    let clause = item_at(source.clauses(), MOST_CLAUSES).map(|clause| clause.head.name.from);
    let terms = Fault::first_of(past(pred), past(con));
    Fault::first_of(Fault::first_of(terms, past(rule)), past(clause))
}

/// Terms of one level that are still to come: one, and so many more.
#[derive(Clone, Copy)]
pub(crate) struct Run {
    pub level: u64,
    pub more: u32,
}

// Adds so many terms of a level.
fn open(runs: &mut Vec<Run>, level: u64, terms: u32) -> Result<(), AllocError>
    ensures { OnOk result (pending runs.new.items
        ≡ repeat terms (level ∷ []) ++ pending runs.old.items) }
{
    if terms > 0 {
        runs.push(Run {
            level,
            more: terms - 1,
        })?;
    }
    Ok(())
}

// Takes the next term and answers its level. None where no term is to come.
fn next_level(runs: &mut Vec<Run>) -> Option<u64>
    ensures none { IfNone result (pending runs.old.items ≡ []) }
    ensures some { IfSome result (λ level. pending runs.old.items
        ≡ level ∷ pending runs.new.items) }
{
    let last = runs.len().checked_sub(1)?;
    let run = runs[last];
    if run.more > 0 {
        runs[last] = Run {
            level: run.level,
            more: run.more - 1,
        };
    } else {
        runs.truncate(last);
    }
    Some(run.level)
}

// Whether no node of an atom stands too deep.
fn is_shallow(alloc: Global, args: u32, nodes: &[RawNode]) -> Result<bool, AllocError>
    ensures { IfOk result (λ shallow. shallow ≡ is_shallow (repeat args (2 ∷ [])) nodes.now) }
{
    let mut runs = Vec::new(alloc);
    open(&mut runs, 2, args)?;
    for node in nodes {
        let Some(level) = next_level(&mut runs) else {
            return Ok(true);
        };
        if level > MOST_DEPTH {
            return Ok(false);
        }
        open(&mut runs, level + 1, node.args)?;
    }
    Ok(true)
}

// The fault of an atom that may not be kept in a state.
pub(crate) fn unfit_fault(alloc: Global, atom: AtomRef) -> Result<Option<Fault>, AllocError>
    ensures { IfOk result (λ first. first ≡ first_in (unfit_faults (atom_at atom.entry))) }
{
    if (atom.nodes.len() as u64) < MOST_NODES && is_shallow(alloc, atom.args, atom.nodes)? {
        return Ok(None);
    }
    Ok(past(Some(atom.name.from)))
}
