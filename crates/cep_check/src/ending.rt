ghost use Rattle.std.specs.Prelude.{◌≡◌, ◌≤◌, IfOk, MatchOption, IsSomeAnd, Some};
ghost use Rattle.cep_rule.specs.Limits.{IsHeight};
ghost use Rattle.cep_rule.specs.Stages.{IsQuiet};
ghost use Rattle.cep_step.specs.Spots.{IsSpotOf};
ghost use Rattle.cep_log.specs.Legal.{IsListing, IsLogOf, IsLegalEnd};
ghost use Rattle.cep_check.specs.Causes.{IsEndCause, IsFirstAsked};

use crate::cause::Cause;
use crate::counts::first_difference;
use cep_base::Steps;
use cep_lines::EndWord;
use cep_log::{Log, LogEnd};
use cep_rule::{Offer, Program};
use cep_scratch::applies_any;
use cep_step::Spot;
use cep_term::copy;
use std::alloc::{AllocError, Global};
use std::sync::ledger::Ledger;

// Why the end is not legal where the steps have led.
pub(crate) fn end_cause<L: Ledger>(
    alloc: Global,
    program: &Program,
    log: &Log,
    spot: &Spot,
    steps: &mut Steps<L>,
) -> Result<Option<Cause>, AllocError>
    requires of_program { IsLogOf program.now log.now }
    requires spot { IsSpotOf program.now spot.now }
    ensures cause { IfOk result (λ cause. MatchOption cause
        (IsSomeAnd log.now.end (IsLegalEnd program.now log.now.height spot.now))
        (IsEndCause program.now log.now.height spot.now log.now.end)) }
    ensures never_falls { steps.old ≤ steps.new }
{
    match &log.end {
        None => Ok(Some(Cause::NotEnded)),
        Some(end) => end_refused(alloc, program, log.height, end, spot, steps),
    }
}

// The same where there is an end.
fn end_refused<L: Ledger>(
    alloc: Global,
    program: &Program,
    height: u32,
    end: &LogEnd,
    spot: &Spot,
    steps: &mut Steps<L>,
) -> Result<Option<Cause>, AllocError>
    requires height { IsHeight height }
    requires listing { IsListing program.now.signature end.now.state }
    requires spot { IsSpotOf program.now spot.now }
    ensures cause { IfOk result (λ cause. MatchOption cause
        (IsLegalEnd program.now height spot.now end.now)
        (IsEndCause program.now height spot.now (Some end.now))) }
    ensures never_falls { steps.old ≤ steps.new }
{
    if end.word == EndWord::Quiet {
        if let Some(offer) = first_asked(alloc, program, height, spot, steps)? {
            return Ok(Some(Cause::NotQuiet { offer }));
        }
    }
    match first_difference(&end.state, spot.state()) {
        None => Ok(None),
        Some(difference) => Ok(Some(Cause::EndState {
            atom: copy(alloc, difference.atom)?,
            said: difference.said,
            is: difference.is,
        })),
    }
}

// The first offer of the group that the stage asks: its own, or, where that has none, the one that
// leaves it.
fn first_asked<L: Ledger>(
    alloc: Global,
    program: &Program,
    height: u32,
    spot: &Spot,
    steps: &mut Steps<L>,
) -> Result<Option<Offer>, AllocError>
    requires height { IsHeight height }
    requires spot { IsSpotOf program.now spot.now }
    ensures first { IfOk result (λ first. MatchOption first
        (IsQuiet program.now height spot.now.state spot.now.stage)
        (IsFirstAsked program.now height spot.now)) }
    ensures never_falls { steps.old ≤ steps.new }
{
    let own = 2 * spot.stage();
    match applies_any(alloc, program, spot.state(), own, height, steps)? {
        Some(first) => Ok(Some(first)),
        None => applies_any(alloc, program, spot.state(), own + 1, height, steps),
    }
}
