ghost use Rattle.std.specs.Prelude.{◌≡◌, ◌≤◌, ◌+◌, ◌*◌, ◌↔◌, length, slice_get, Some, IsTrue, IfSome, IfNone, MatchOption, pos, neg_ℤ, ◌*ℤ◌, ◌≤ℤ◌, if◌then◌else◌};
ghost use Rattle.cep_rule.specs.Patterns.{premise_of};
ghost use Rattle.cep_base.specs.declared.limits.TheConstants.{MOST_PREMISES, MOST_RIGHT};
ghost use Rattle.cep_weigh.specs.Weights.{weight_of, left_sum, right_sum, factor_of, Wants, AllKeepTo, IsFirstAgainst, IsWeightOf};
ghost use Rattle.cep_weigh.specs.WeightRuns.{HoldsOfRuns, BreaksSteps};
ghost use Rattle.cep_weigh.specs.Tables.{AreFactors};

use crate::against::Against;
use crate::laws::{claims_hold_of_runs, sums_add_factors};
use cep_claim::{Claim, Part, Weight};
use cep_rule::{Premise, Program, Rule};

/// The rule of least number that does not keep to the weight's claim, with both its sums, or none
/// if each rule keeps to it. Then the claim holds of every run from the start: the weight stays,
/// or never increases, or there are at most as many steps as the start weighs; and if all factors
/// are positive, no state of a run has more copies of a part's predicate than the weight of the
/// start divided by the part's factor. Of a rule that is answered each step breaks the claim;
/// whether it ever applies is left open. Claims are this profile's. It takes no memory.
pub fn judge(program: &Program, weight: &Weight) -> Option<Against>
    requires { IsWeightOf program.now weight.now }
    ensures rule { MatchOption result
        (AllKeepTo program.now weight.now.claim weight.now.sum)
        (IsFirstAgainst program.now weight.now.claim weight.now.sum) }
    ensures runs { IfNone result (HoldsOfRuns program.now weight.now.claim weight.now.sum) }
    ensures broken { IfSome result
        (λ against. BreaksSteps program.now weight.now.claim weight.now.sum against.rule) }
{
    claims_hold_of_runs();
    let parts = weight.sum.as_slice();
    let rules = &program.parts().rules;
    for i in 0..rules.len() {
        let rule = rules.get(i);
        let left = left_sum(parts, rule);
        let right = right_sum(parts, rule);
        if !wants(weight.claim, left, right) {
            let rule = i as u32;
            return Some(Against { rule, left, right });
        }
    }
    None
}

/// The weight of the program's start state. It takes no memory.
pub fn start_weight(program: &Program, weight: &Weight) -> i64
    requires { IsWeightOf program.now weight.now }
    ensures { result ≡ weight_of weight.now.sum program.now.start }
{
    let parts = weight.sum.as_slice();
    let start = &program.parts().start;
    let mut total = 0;
    for i in 0..start.len() {
        let (atom, copies) = start.entry(i);
        total += worth(parts, atom.pred, copies);
    }
    total
}

// What so many copies of a predicate's atoms weigh.
fn worth(parts: &[Part], pred: u32, copies: u32) -> i64
    requires { AreFactors parts.now }
    ensures value { result ≡ factor_of parts.now pred *ℤ pos copies }
    ensures low { neg_ℤ (pos (1000000 * copies)) ≤ℤ result }
    ensures high { result ≤ℤ pos (1000000 * copies) }
{
    factor_of(parts, pred) * i64::from(copies)
}

// The factor of a predicate, and 0 where no part is of it.
fn factor_of(parts: &[Part], pred: u32) -> i64
    requires { AreFactors parts.now }
    ensures value { result ≡ factor_of parts.now pred }
    ensures low { neg_ℤ (pos 1000000) ≤ℤ result }
    ensures high { result ≤ℤ pos 1000000 }
{
    match parts {
        [] => 0,
        [part, later @ ..] => {
            if part.pred == pred {
                part.factor
            } else {
                factor_of(later, pred)
            }
        }
    }
}

// The left sum of a rule.
fn left_sum(parts: &[Part], rule: &Rule) -> i64
    requires parts { AreFactors parts.now }
    requires few { length rule.now.premises ≤ MOST_PREMISES }
    ensures { result ≡ left_sum parts.now rule.now }
{
    sums_add_factors();
    let mut total = 0;
    for i in 0..rule.premises.len() {
        total += used_factor(parts, rule.premises.get(i));
    }
    total
}

// The factor of a premise's predicate, and 0 where the premise is kept.
fn used_factor(parts: &[Part], premise: &Premise) -> i64
    requires { AreFactors parts.now }
    ensures value { let seen = premise_of premise.now in
        result ≡ (if seen.kept then pos 0 else factor_of parts.now seen.atom.pred) }
    ensures low { neg_ℤ (pos 1000000) ≤ℤ result }
    ensures high { result ≤ℤ pos 1000000 }
{
    if premise.kept {
        0
    } else {
        factor_of(parts, premise.atom.pred)
    }
}

// The right sum of a rule.
fn right_sum(parts: &[Part], rule: &Rule) -> i64
    requires parts { AreFactors parts.now }
    requires few { length rule.now.right ≤ MOST_RIGHT }
    ensures { result ≡ right_sum parts.now rule.now }
{
    sums_add_factors();
    let mut total = 0;
    for i in 0..rule.right.len() {
        total += factor_of(parts, rule.right.get(i).pred);
    }
    total
}

// Whether the claim wants that the old number becomes the new one.
fn wants(claim: Claim, old: i64, new: i64) -> bool
    ensures { IsTrue result ↔ Wants claim old new }
{
    match claim {
        Claim::Keep => new == old,
        Claim::Most => new <= old,
        Claim::Fall => new < old,
    }
}
