ghost use Rattle.std.specs.Prelude.{◌≡◌, ◌↔◌, ◌≤◌, length, IfOk, IfSome, MatchOption, MatchResult, IsSome, Some};
ghost use Rattle.std.specs.FinMap as finite;
ghost use Rattle.std.specs.List.{AllByRecursion};
ghost use Rattle.cep_base.specs.declared.limits.TheConstants.{MOST_PREMISES};
ghost use Rattle.cep_term.specs.Tree.{IsAtomInRange, IsGroundAtom};
ghost use Rattle.cep_term.specs.Multiset.{IsContained};
ghost use Rattle.cep_rule.specs.Binding.{needed_of};
ghost use Rattle.cep_rule.specs.Instances.{full_instances, left_of};
ghost use Rattle.cep_rule.specs.declared.signature.Signature.{Signature};
ghost use Rattle.cep_rule.specs.Limits.{IsHeight};
ghost use Rattle.cep_rule.specs.Stages.{HasOffer, own_group, leaving_group};
ghost use Rattle.cep_log.specs.Legal.{IsListing, IsStepOf, IsLegalStep};
ghost use Rattle.cep_step.specs.Spots.{IsSpotOf};
ghost use Rattle.cep_check.specs.Causes.{IsOfStage, IsInTurn, IsStepCause};
ghost use Rattle.cep_check.specs.Walking.{IsReadyStep, IsLackCause, IsQuietCause, IsStageCause, IsDoneStep, IsMidCause, IsStepCauseOf};

use crate::cause::Cause;
use crate::counts::{first_difference, first_lack};
use crate::needed::needed_atoms;
use crate::premises::first_failure;
use cep_base::Steps;
use cep_log::{LogMid, LogStep};
use cep_offer::gained_unless_all;
use cep_rule::laws::types_are_lawful;
use cep_rule::{Program, Rule, Terms};
use cep_scratch::applies_any;
use cep_step::{Spot, Weighed};
use cep_term::laws::bags_are_lawful;
use cep_term::{Bag, copy};
use std::alloc::{AllocError, Global};
use std::sync::ledger::Ledger;

// Where the step leads, or why it is not legal.
pub(crate) fn advance<L: Ledger>(
    alloc: Global,
    program: &Program,
    height: u32,
    step: &LogStep,
    spot: Spot,
    steps: &mut Steps<L>,
) -> Result<Result<Spot, Cause>, AllocError>
    requires height { IsHeight height }
    requires of_program { IsStepOf program.now step.now }
    requires spot { IsSpotOf program.now spot }
    ensures done { IfOk result (λ done. MatchResult done
        (λ new. IsLegalStep program.now height spot new step.now × IsSpotOf program.now new)
        (IsStepCauseOf program.now height spot step.now)) }
    ensures never_falls { steps.old ≤ steps.new }
{
    let rule = program.parts().rules.get(step.offer.rule as usize);
    match cause_before(alloc, program, height, rule, step, &spot, steps)? {
        Some(cause) => Ok(Err(cause)),
        None => change(alloc, program, height, rule, step, spot),
    }
}

// Why the step is not legal, as far as it is seen before anything changes.
fn cause_before<L: Ledger>(
    alloc: Global,
    program: &Program,
    height: u32,
    rule: &Rule,
    step: &LogStep,
    spot: &Spot,
    steps: &mut Steps<L>,
) -> Result<Option<Cause>, AllocError>
    requires height { IsHeight height }
    requires ready { IsReadyStep program.now rule.now step.now }
    requires spot { IsSpotOf program.now spot.now }
    ensures cause { IfOk result (λ cause. MatchOption cause
        (IsInTurn program.now height spot.now rule.now step.now)
        (IsStepCause program.now height spot.now rule.now step.now)) }
    ensures never_falls { steps.old ≤ steps.new }
{
    types_are_lawful();
    let offer = &step.offer;
    if rule.group / 2 != spot.stage() {
        return Ok(Some(Cause::OtherStage { rule: offer.rule }));
    }
    if let Some(cause) = not_contained(alloc, program, rule, &offer.values, spot.state())? {
        return Ok(Some(cause));
    }
    let (values, proofs) = (&offer.values, &step.proofs);
    if let Some(cause) = first_failure(alloc, program, height, &rule.backs, values, proofs)? {
        return Ok(Some(cause));
    }
    not_quiet(alloc, program, height, rule, spot, steps)
}

// The first atom of the rule's left side of which the state has too few copies.
fn not_contained(
    alloc: Global,
    program: &Program,
    rule: &Rule,
    values: &Terms,
    state: &Bag,
) -> Result<Option<Cause>, AllocError>
    requires in_range { AllByRecursion (IsAtomInRange (length values.now)) (needed_of rule.now) }
    requires ground { AllByRecursion IsGroundAtom (full_instances values.now (needed_of rule.now)) }
    requires few { length rule.now.premises ≤ MOST_PREMISES }
    ensures { IfOk result (λ cause. MatchOption cause
        (IsContained (left_of program.now.signature rule.now values.now) state.now)
        (IsLackCause (left_of program.now.signature rule.now values.now) state.now)) }
{
    bags_are_lawful();
    let needed = needed_atoms(alloc, rule, values)?;
    let signature = &program.parts().signature;
    let left = gained_unless_all(alloc, signature, &Bag::new(alloc), &needed)?.unwrap_or(needed);
    let left = Bag::of(alloc, left)?;
    match first_lack(&left, state) {
        None => Ok(None),
        Some(lack) => Ok(Some(Cause::NotContained {
            atom: copy(alloc, lack.atom)?,
            have: lack.have,
            need: lack.need,
        })),
    }
}

// The first offer of the stage's own group, where the rule leaves the stage. Only there are offers
// looked for.
fn not_quiet<L: Ledger>(
    alloc: Global,
    program: &Program,
    height: u32,
    rule: &Rule,
    spot: &Spot,
    steps: &mut Steps<L>,
) -> Result<Option<Cause>, AllocError>
    requires height { IsHeight height }
    requires spot { IsSpotOf program.now spot.now }
    requires of_stage { IsOfStage spot.now.stage rule.now }
    ensures cause { IfOk result (λ cause. MatchOption cause
        (rule.now.group ≡ leaving_group spot.now.stage
        → ¬ HasOffer program.now height spot.now.state (own_group spot.now.stage))
        (IsQuietCause program.now height spot.now rule.now)) }
    ensures never_falls { steps.old ≤ steps.new }
{
    if rule.group % 2 == 0 {
        return Ok(None);
    }
    let own = 2 * spot.stage();
    let first = applies_any(alloc, program, spot.state(), own, height, steps)?;
    Ok(first.map(|offer| Cause::NotQuiet { offer }))
}

// Goes on by a step that is in turn, where it passes no limit, its stage is the rule's, and a
// listing after it is that of the new state.
fn change(
    alloc: Global,
    program: &Program,
    height: u32,
    rule: &Rule,
    step: &LogStep,
    spot: Spot,
) -> Result<Result<Spot, Cause>, AllocError>
    requires in_turn { IsInTurn program.now height spot rule.now step.now }
    requires ready { IsReadyStep program.now rule.now step.now }
    requires spot { IsSpotOf program.now spot }
    ensures { IfOk result (λ done. MatchResult done
        (λ new. IsLegalStep program.now height spot new step.now × IsSpotOf program.now new)
        (IsStepCause program.now height spot rule.now step.now)) }
{
    let new = match go_on(alloc, program, height, rule, step, spot)? {
        Ok(new) => new,
        Err(cause) => return Ok(Err(cause)),
    };
    match mid_cause(alloc, &step.mid, new.state())? {
        None => Ok(Ok(new)),
        Some(cause) => Ok(Err(cause)),
    }
}

// Goes on by a step that is in turn, whatever is listed after it.
fn go_on(
    alloc: Global,
    program: &Program,
    height: u32,
    rule: &Rule,
    step: &LogStep,
    spot: Spot,
) -> Result<Result<Spot, Cause>, AllocError>
    requires in_turn { IsInTurn program.now height spot rule.now step.now }
    requires ready { IsReadyStep program.now rule.now step.now }
    requires spot { IsSpotOf program.now spot }
    ensures { IfOk result (λ done. MatchResult done
        (λ new. IsDoneStep program.now height spot new rule.now step.now × IsSpotOf program.now new)
        (IsStepCause program.now height spot rule.now step.now)) }
{
    let change = match spot.weigh(alloc, program, rule, &step.offer.values)? {
        Weighed::Passes(limit, _) => return Ok(Err(Cause::OverLimit { limit })),
        Weighed::Within(change) => change,
    };
    if let Some(cause) = stage_cause(step.stage, rule.next) {
        return Ok(Err(cause));
    }
    Ok(Ok(spot.go(&change)?))
}

// Whether the stage that is said is another than the one that the rule names.
fn stage_cause(said: Option<u32>, named: Option<u32>) -> Option<Cause>
    requires { IsSome said ↔ IsSome named }
    ensures { MatchOption result (said ≡ named) (IsStageCause said named) }
{
    match named {
        None => None,
        Some(is) => match said {
            None => None,
            Some(said) => {
                if said == is {
                    None
                } else {
                    Some(Cause::StageLine { said, is })
                }
            }
        },
    }
}

// Whether the listing is another than that of the state.
fn mid_cause(alloc: Global, mid: &Option<LogMid>, state: &Bag) -> Result<Option<Cause>, AllocError>
    requires { (signature : Signature) × IfSome mid.now (λ mid. IsListing signature mid.state) }
    ensures { IfOk result (λ cause. MatchOption cause
        (IfSome mid.now (λ mid. mid.state ≡ finite.entries state.now))
        (IsMidCause mid.now state.now)) }
{
    match mid {
        None => Ok(None),
        Some(mid) => listing_cause(alloc, mid, state),
    }
}

// The same where there is a listing.
fn listing_cause(alloc: Global, mid: &LogMid, state: &Bag) -> Result<Option<Cause>, AllocError>
    requires { (signature : Signature) × IsListing signature mid.now.state }
    ensures { IfOk result (λ cause. MatchOption cause
        (mid.now.state ≡ finite.entries state.now)
        (IsMidCause (Some mid.now) state.now)) }
{
    match first_difference(&mid.state, state) {
        None => Ok(None),
        Some(difference) => Ok(Some(Cause::MidState {
            line: mid.line,
            atom: copy(alloc, difference.atom)?,
            said: difference.said,
            is: difference.is,
        })),
    }
}
