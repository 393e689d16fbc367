ghost use Rattle.std.specs.Prelude.{◌≡◌, ◌↔◌, ◌≤◌, IfOk, MatchOption, MatchResult};
ghost use Rattle.std.specs.FinMap as finite;
ghost use Rattle.cep_base.specs.declared.limits.TheConstants.{MOST_LOG};
ghost use Rattle.cep_step.specs.Spots.{IsSpotOf};
ghost use Rattle.cep_log.specs.Legal.{IsLogOf, AreLegalSteps, IsLegal};
ghost use Rattle.cep_check.specs.Causes.{IsStartCause, cause_line, end_line, AcceptsLog, IsRefusedFrom, IsVerdict};
ghost use Rattle.cep_check.specs.Telling.{IsTellable};
ghost use Rattle.cep_check.specs.Walking.{IsEndVerdict};

use crate::cause::{Cause, Verdict};
use crate::counts::first_difference;
use crate::ending::end_cause;
use crate::laws::{one_cause, refused_logs_are_not_legal, verdicts_can_be_told};
use crate::step::advance;
use cep_base::Steps;
use cep_log::{Log, LogStep};
use cep_rule::Program;
use cep_step::Spot;
use cep_term::copy;
use std::alloc::{AllocError, Global};
use std::sync::ledger::Ledger;

/// Whether a log of the program is legal for it: it is accepted if and only if it is, with the
/// number of its steps, and else refused for the first cause that comes, with its line. Both are
/// one, by the law `one_cause`. The offers are those within the log's height. Which logs are legal
/// is said with the log. Each verdict can be told as a line. Only out of memory is refused, after
/// any ticks.
pub fn check<L: Ledger>(
    alloc: Global,
    program: &Program,
    log: &Log,
    steps: &mut Steps<L>,
) -> Result<Verdict, AllocError>
    requires { IsLogOf program.now log.now }
    ensures accepted { IfOk result (λ verdict. AcceptsLog verdict ↔ IsLegal program.now log.now) }
    ensures verdict { IfOk result (IsVerdict program.now log.now) }
    ensures tellable { IfOk result (IsTellable program.now) }
    ensures never_falls { steps.old ≤ steps.new }
{
    refused_logs_are_not_legal();
    one_cause();
    verdicts_can_be_told(program);
    judge(alloc, program, log, steps)
}

// The verdict on the log.
fn judge<L: Ledger>(
    alloc: Global,
    program: &Program,
    log: &Log,
    steps: &mut Steps<L>,
) -> Result<Verdict, AllocError>
    requires of_program { IsLogOf program.now log.now }
    ensures verdict { IfOk result (IsVerdict program.now log.now) }
    ensures never_falls { steps.old ≤ steps.new }
{
    if let Some(cause) = start_cause(alloc, program, log)? {
        let line = log.stage_line;
        return Ok(Verdict::Refused { line, cause });
    }
    let start = Spot::start(alloc, program)?;
    match last_spot(alloc, program, log, start, steps)? {
        Ok(last) => finish(alloc, program, log, &last, steps),
        Err((line, cause)) => Ok(Verdict::Refused { line, cause }),
    }
}

// Why the header or the start listing is not the program's.
fn start_cause(alloc: Global, program: &Program, log: &Log) -> Result<Option<Cause>, AllocError>
    requires { IsLogOf program.now log.now }
    ensures { IfOk result (λ cause. MatchOption cause
        ((log.now.stage ≡ program.now.start_stage)
        × (log.now.start ≡ finite.entries program.now.start))
        (IsStartCause program.now log.now)) }
{
    let parts = program.parts();
    if log.stage != parts.start_stage {
        return Ok(Some(Cause::StartStage {
            said: log.stage,
            is: parts.start_stage,
        }));
    }
    match first_difference(&log.start, &parts.start) {
        None => Ok(None),
        Some(difference) => Ok(Some(Cause::StartState {
            atom: copy(alloc, difference.atom)?,
            said: difference.said,
            is: difference.is,
        })),
    }
}

// Where all steps lead, or the line of the first that is not legal, and why it is not.
fn last_spot<L: Ledger>(
    alloc: Global,
    program: &Program,
    log: &Log,
    start: Spot,
    steps: &mut Steps<L>,
) -> Result<Result<Spot, (u32, Cause)>, AllocError>
    requires of_program { IsLogOf program.now log.now }
    requires spot { IsSpotOf program.now start }
    ensures done { IfOk result (λ done. MatchResult done
        (λ last. AreLegalSteps program.now log.now.height log.now.steps start last
        × IsSpotOf program.now last)
        (λ refused. IsRefusedFrom program.now log.now start log.now.steps refused.0 refused.1)) }
    ensures never_falls { steps.old ≤ steps.new }
{
    let mut spot = start;
    for i in 0..log.steps.len() {
        let step = log.steps.get(i);
        spot = match advance(alloc, program, log.height, step, spot, steps)? {
            Ok(next) => next,
            Err(cause) => return Ok(Err((cause_line(step, &cause), cause))),
        };
    }
    Ok(Ok(spot))
}

// The line of a cause that comes at the step.
fn cause_line(step: &LogStep, cause: &Cause) -> u32
    ensures { result ≡ cause_line step.now cause.now }
{
    match cause {
        Cause::MidState { line, .. } => *line,
        _ => step.line,
    }
}

// What is left where all steps are legal: the end.
fn finish<L: Ledger>(
    alloc: Global,
    program: &Program,
    log: &Log,
    last: &Spot,
    steps: &mut Steps<L>,
) -> Result<Verdict, AllocError>
    requires of_program { IsLogOf program.now log.now }
    requires last { IsSpotOf program.now last.now }
    ensures verdict { IfOk result (IsEndVerdict program.now log.now last.now) }
    ensures never_falls { steps.old ≤ steps.new }
{
    match end_cause(alloc, program, log, last, steps)? {
        None => Ok(Verdict::Accepted {
            steps: log.steps.len() as u32,
        }),
        Some(cause) => Ok(Verdict::Refused {
            line: end_line(log),
            cause,
        }),
    }
}

// The line of the end, and where there is none the one after the last.
fn end_line(log: &Log) -> u32
    requires { log.now.lines ≤ MOST_LOG }
    ensures { result ≡ end_line log.now log.now.end }
{
    match &log.end {
        None => log.lines + 1,
        Some(end) => end.line,
    }
}
