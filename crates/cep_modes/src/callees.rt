ghost use Rattle.std.specs.Prelude.{◌≡◌, ℕ, ◌+◌, ◌*◌, ◌<◌, ◌≤◌, [], ◌++◌, length, map, OnOk, IfOk, Vec};
ghost use Rattle.std.specs.List.{AllByRecursion};
ghost use Rattle.cep_term.specs.Tree.{atom_of};
ghost use Rattle.cep_rule.specs.Patterns.{ClauseTree, clause_of};
ghost use Rattle.cep_rule.specs.Binding.{needed_of};
ghost use Rattle.cep_rule.specs.Groundness.{Known, known_after_all};
ghost use Rattle.cep_modes.specs.Places.{holds, positions_of, IsPlain, IsPlainClause, places_of, clause_callees, numbers_of, IsClauseTable, callees_by, callees, rule_places, all_places};

use crate::known::{are_known, learn_all, learn_at, place, unknown};
use cep_rule::{Clause, Clauses, Rule, Rules};
use cep_term::AtomList;
use std::alloc::{AllocError, Global};

// How many pairs a predicate has: one for each set of its arguments' positions.
pub(crate) const SETS: usize = 256;

// Adds the numbers of the pairs that the goals call, each of which makes its variables known.
fn add_calls(known: &mut [bool], goals: &AtomList, found: &mut Vec<usize>) -> Result<(), AllocError>
    requires { AllByRecursion (IsPlain (length known.old)) goals.now }
    ensures found { OnOk result (found.new.items
        ≡ found.old.items ++ places_of (holds known.old) goals.now) }
    ensures known { OnOk result (holds known.new ≡ known_after_all (holds known.old) goals.now) }
{
    for i in 0..goals.len() {
        let goal = goals.get(i);
        found.push(place(known, goal))?;
        learn_all(known, &goal.args);
    }
    Ok(())
}

// Adds the numbers that the clause calls whose head is known at the positions that the number tells.
fn add_callees(clause: &Clause, positions: usize, found: &mut Vec<usize>) -> Result<(), AllocError>
    requires { IsPlainClause 32 (clause_of clause.now) }
    ensures { OnOk result (found.new.items
        ≡ found.old.items ++ clause_callees (positions_of positions) (clause_of clause.now)) }
{
    let mut known = unknown();
    learn_at(&mut known, positions, &clause.head.args);
    add_calls(&mut known, &clause.goals, found)?;
    if !are_known(&known, &clause.head.args) {
        found.push(0)?;
    }
    Ok(())
}

// The numbers of the clauses of the predicate.
fn numbers(alloc: Global, clauses: &Clauses, pred: usize) -> Result<Vec<usize>, AllocError>
    ensures { IfOk result (λ found. found.items ≡ numbers_of pred 0 clauses.now) }
{
    let mut found = Vec::new(alloc);
    for i in 0..clauses.len() {
        if clauses.get(i).head.pred as usize == pred {
            found.push(i)?;
        }
    }
    Ok(found)
}

// For each predicate the numbers of its clauses.
pub(crate) fn table(
    alloc: Global,
    clauses: &Clauses,
    preds: usize,
) -> Result<Vec<Vec<usize>>, AllocError>
    ensures many { IfOk result (λ table. length table.items ≡ preds) }
    ensures numbers { IfOk result (λ table.
        IsClauseTable clauses.now 0 (map (λ numbers. numbers.items) table.items)) }
{
    let mut table = Vec::new(alloc);
    for pred in 0..preds {
        table.push(numbers(alloc, clauses, pred)?)?;
    }
    Ok(table)
}

// What the pair with this number calls.
pub(crate) fn callees_at(
    alloc: Global,
    clauses: &Clauses,
    table: &Vec<Vec<usize>>,
    n: usize,
) -> Result<Vec<usize>, AllocError>
    requires plain { AllByRecursion (IsPlainClause 32) clauses.now }
    requires table { IsClauseTable clauses.now 0 (map (λ numbers. numbers.items) table.now.items) }
    requires in_range { n < length table.now.items * 256 + 1 }
    ensures { IfOk result (λ found. found.items ≡ callees clauses.now n) }
{
    let mut found = Vec::new(alloc);
    if n == 0 {
        return Ok(found);
    }
    let numbers = &table[(n - 1) / SETS];
    for i in numbers {
        add_callees(clauses.get(*i), (n - 1) % SETS, &mut found)?;
    }
    Ok(found)
}

// The numbers of the pairs that the rule's backward premises call.
pub(crate) fn calls_of_rule(alloc: Global, rule: &Rule) -> Result<Vec<usize>, AllocError>
    requires premises { AllByRecursion (IsPlain 32) (needed_of rule.now) }
    requires backs { AllByRecursion (IsPlain 32) rule.now.backs }
    ensures { IfOk result (λ found. found.items ≡ rule_places rule.now) }
{
    let mut known = unknown();
    for i in 0..rule.premises.len() {
        learn_all(&mut known, &rule.premises.get(i).atom.args);
    }
    let mut found = Vec::new(alloc);
    add_calls(&mut known, &rule.backs, &mut found)?;
    Ok(found)
}

// Those of all rules.
pub(crate) fn calls_of_rules(alloc: Global, rules: &Rules) -> Result<Vec<usize>, AllocError>
    requires premises { AllByRecursion
        (λ rule. AllByRecursion (IsPlain 32) (needed_of rule)) rules.now }
    requires backs { AllByRecursion (λ rule. AllByRecursion (IsPlain 32) rule.backs) rules.now }
    ensures { IfOk result (λ found. found.items ≡ all_places rules.now) }
{
    let mut found = Vec::new(alloc);
    for i in 0..rules.len() {
        let of_rule = calls_of_rule(alloc, rules.get(i))?;
        found.extend_from_slice(&of_rule)?;
    }
    Ok(found)
}
