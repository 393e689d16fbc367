ghost use Rattle.std.specs.Prelude.{◌≡◌, true, Contains, MatchOption, IfOk};
ghost use Rattle.std.specs.List.{AllByRecursion};
ghost use Rattle.cep_rule.specs.Program.{IsProgram};
ghost use Rattle.cep_reach.specs.Rounds.{RulePasses};
ghost use Rattle.cep_dead.specs.Whys.{IsWhy};
ghost use Rattle.cep_dead.specs.Deads.{AreDeads, NeverApplies};
ghost use Rattle.cep_reach.specs.Held.{is_held};
ghost use Rattle.cep_reach.specs.Adding.{IsLastTable};

use crate::dead_rule::{DeadRule, DeadWhy, Deads};
use crate::laws::{closed_tables_tell_dead_rules, dead_rules_never_apply};
use cep_reach::{Table, first_empty, first_shut, last_table, premises_of, sets_of};
use cep_rule::{Parts, Program, Rule};
use std::alloc::{AllocError, Global};

/// The rules that can never apply, strictly increasing, each with its first why by the last table:
/// no instance of any of them applies in its stage, wherever moves from the start lead. Only out of
/// memory is refused. The report is this profile's.
pub fn dead(alloc: Global, program: &Program) -> Result<Deads, AllocError>
    ensures deads { IfOk result (AreDeads program.now) }
    ensures never { IfOk result
        (AllByRecursion (λ dead. NeverApplies program.now dead.rule)) }
{
    dead_rules_never_apply();
    let parts = program.parts();
    let table = last_table(alloc, parts)?;
    dead_by(alloc, parts, &table)
}

// The rules that do not pass the last table, in order, each with its why.
fn dead_by(alloc: Global, program: &Parts, table: &Table) -> Result<Deads, AllocError>
    requires program { IsProgram program.now }
    requires last { IsLastTable program.now (is_held table.now) }
    ensures { IfOk result (AreDeads program.now) }
{
    closed_tables_tell_dead_rules();
    let mut deads = Deads::new(alloc);
    for i in 0..program.rules.len() {
        if let Some(why) = why_not(alloc, program, table, program.rules.get(i))? {
            let rule = i as u32;
            deads.push(DeadRule { rule, why })?;
        }
    }
    Ok(deads)
}

// Why the rule does not pass the table, if it does not.
fn why_not(
    alloc: Global,
    program: &Parts,
    table: &Table,
    rule: &Rule,
) -> Result<Option<DeadWhy>, AllocError>
    requires program { IsProgram program.now }
    requires of_program { Contains program.now.rules rule.now }
    ensures { IfOk result (λ why. MatchOption why
        (RulePasses program.now (λ item. is_held table.now item ≡ true) rule.now)
        (IsWhy program.now (λ item. is_held table.now item ≡ true) rule.now)) }
{
    let stage = rule.group / 2;
    if !table.has_stage(stage) {
        return Ok(Some(DeadWhy::Stage(stage)));
    }
    let premises = premises_of(alloc, rule)?;
    let kinds = rule.kinds.as_slice();
    if let Some(place) = first_shut(&program.signature, table, kinds, &premises) {
        return Ok(Some(DeadWhy::Premise(place as u32 + 1)));
    }
    let sets = sets_of(alloc, &program.signature, table, kinds, &premises)?;
    match first_empty(&program.signature, table, kinds, &premises, &sets) {
        Some(v) => Ok(Some(DeadWhy::Var(v as u32))),
        None => Ok(None),
    }
}
