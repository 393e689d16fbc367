ghost use Rattle.std.specs.Prelude.{◌≡◌, ◌+◌, ◌*◌, ◌<◌, length, map, IfOk};
ghost use Rattle.std.specs.List.{AllByRecursion};
ghost use Rattle.cep_rule.specs.Binding.{needed_of};
ghost use Rattle.cep_modes.specs.Grounding.{AreInOrder};
ghost use Rattle.cep_modes.specs.Places.{holds, IsPlain, rule_places, all_places};
ghost use Rattle.cep_modes.specs.Reaching.{IsClosed};
ghost use Rattle.cep_modes.specs.Leading.{TellsBad};

use crate::callees::{SETS, calls_of_rule, calls_of_rules, table};
use crate::marks::spread;
use crate::reach::{Call, no_flags, reached};
use cep_base::List;
use cep_rule::laws::{bad_pairs_are_those_that_fail, types_are_lawful};
use cep_rule::{Parts, Rule};
use std::alloc::{AllocError, Global};

// All calls of the pairs that the rules' backward premises lead to.
fn calls_of(alloc: Global, parts: &Parts) -> Result<Vec<Call>, AllocError>
    requires { AreInOrder parts.now }
    ensures { IfOk result (λ calls.
        IsClosed parts.now.clauses (length parts.now.signature.preds * 256 + 1)
        (all_places parts.now.rules) calls.items) }
{
    types_are_lawful();
    let numbers = table(alloc, &parts.clauses, parts.signature.preds.len())?;
    let first = calls_of_rules(alloc, &parts.rules)?;
    reached(alloc, &parts.clauses, &numbers, &first)
}

// A flag for each pair, which is set where it is bad, of those that the rules' backward premises call.
pub(crate) fn bad_pairs(alloc: Global, parts: &Parts) -> Result<Vec<bool>, AllocError>
    requires { AreInOrder parts.now }
    ensures { IfOk result (λ marked.
        TellsBad parts.now.clauses (all_places parts.now.rules) marked.items) }
{
    types_are_lawful();
    bad_pairs_are_those_that_fail();
    let calls = calls_of(alloc, parts)?;
    let mut flags = no_flags(alloc, parts.signature.preds.len() * SETS + 1)?;
    let marked = flags.as_mut_slice();
    marked[0] = true;
    spread(&calls, marked);
    Ok(flags)
}

// Whether each backward premise of the rule calls a pair that is marked.
pub(crate) fn marks_of_rule(
    alloc: Global,
    rule: &Rule,
    marked: &[bool],
) -> Result<List<bool>, AllocError>
    requires premises { AllByRecursion (IsPlain 32) (needed_of rule.now) }
    requires backs { AllByRecursion (IsPlain 32) rule.now.backs }
    requires within { AllByRecursion (λ n. n < length marked.now) (rule_places rule.now) }
    ensures { IfOk result (λ marks. marks ≡ map (holds marked.now) (rule_places rule.now)) }
{
    let numbers = calls_of_rule(alloc, rule)?;
    let mut marks = List::new(alloc);
    for n in &numbers {
        marks.push(marked[*n])?;
    }
    Ok(marks)
}
