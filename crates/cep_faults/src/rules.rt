// The rules and the clauses of a file.
ghost use Rattle.std.specs.Prelude.{◌≡◌, count_by, IfOk};
ghost use Rattle.std.specs.List.{flat_map};
ghost use Rattle.cep_refusal.specs.First.{first_in};
ghost use Rattle.cep_source.specs.Items.{rules_of, clauses_of};
ghost use Rattle.cep_source.specs.Kept.{rule_item, clause_item};
ghost use Rattle.cep_faults.specs.Misnamed.{is_qui};
ghost use Rattle.cep_faults.specs.Faults.{is_stage, home_faults, rule_faults, clause_faults};

use crate::atoms::{clause_atom_fault, side_fault};
use crate::limits::{backward_past, goal_past, right_past, state_premise_past, variable_past};
use crate::uses::wrong;
use cep_parse::RawElem;
use cep_refusal::{Fault, FirstFault, Reason};
use cep_source::{AtomRef, ClauseRef, RuleRef, Source, Variables};
use std::alloc::AllocError;

fn quis(side: &[RawElem]) -> usize
    ensures { result ≡ count_by is_qui side.now }
{
    side.iter()
        .filter(|elem| matches!(elem, RawElem::Qui(_)))
        .count()
}

fn stages(side: &[RawElem]) -> usize
    ensures { result ≡ count_by is_stage side.now }
{
    side.iter()
        .filter(|elem| matches!(elem, RawElem::Stage(_)))
        .count()
}

// The fault of a rule outside of stages that does not lead from one stage to one stage at
// quiescence.
fn home_fault(rule: &RuleRef) -> Option<Fault>
    ensures { result ≡ first_in (home_faults (rule_item rule.now)) }
{
    if rule.home.is_some() {
        return None;
    }
    let left = rule.raw.left.as_slice();
    if quis(left) == 1 && stages(left) == 1 && stages(rule.raw.right.as_slice()) == 1 {
        return None;
    }
    wrong(Reason::BadQui, rule.raw.at)
}

// The first fault of a rule.
fn rule_fault(source: &Source, rule: &RuleRef) -> Result<Option<Fault>, AllocError>
    ensures { IfOk result (λ first. first
        ≡ first_in (rule_faults source.now (rule_item rule.now))) }
{
    let left = rule.raw.left.as_slice();
    let right = rule.raw.right.as_slice();
    let variables = Variables::of_side(source, left)?;
    let mut first = FirstFault::none();
    first.note(side_fault(source, false, left));
    first.note(side_fault(source, true, right));
    first.note(state_premise_past(source, left));
    first.note(backward_past(source, left));
    first.note(right_past(right));
    first.note(variable_past(&variables));
    first.note(home_fault(rule));
    Ok(first.found())
}

// The first fault of the rules.
pub(crate) fn rules_fault(source: &Source) -> Result<Option<Fault>, AllocError>
    ensures { IfOk result (λ first. first
        ≡ first_in (flat_map (rule_faults source.now) (rules_of source.now))) }
{
    let mut first = FirstFault::none();
    for rule in source.rules() {
        let fault = rule_fault(source, rule)?;
        first.note(fault);
    }
    Ok(first.found())
}

// The first fault of a clause.
fn clause_fault(source: &Source, clause: &ClauseRef) -> Result<Option<Fault>, AllocError>
    ensures { IfOk result (λ first. first
        ≡ first_in (clause_faults source.now (clause_item clause.now))) }
{
    let variables = Variables::of_clause(source, clause)?;
    let mut first = FirstFault::none();
    first.note(clause_atom_fault(source, clause.head));
    for goal in clause.goals {
        first.note(clause_atom_fault(source, AtomRef::of_raw(goal)));
    }
    first.note(goal_past(clause.goals));
    first.note(variable_past(&variables));
    Ok(first.found())
}

// The first fault of the clauses.
pub(crate) fn clauses_fault(source: &Source) -> Result<Option<Fault>, AllocError>
    ensures { IfOk result (λ first. first
        ≡ first_in (flat_map (clause_faults source.now) (clauses_of source.now))) }
{
    let mut first = FirstFault::none();
    for clause in source.clauses() {
        let fault = clause_fault(source, clause)?;
        first.note(fault);
    }
    Ok(first.found())
}
