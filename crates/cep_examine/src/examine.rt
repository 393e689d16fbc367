// Examines a second file against a program: a transcript, or a file of claims.
ghost use Rattle.std.specs.Prelude.{◌≡◌, ◌≢◌, ◌≤◌, length, IfOk};
ghost use Rattle.cep_base.specs.declared.limits.TheConstants.{MOST_LOG};
ghost use Rattle.cep_log.specs.Legal.{IsLogOf, IsLegal};
ghost use Rattle.cep_check.specs.Causes.{IsVerdict};
ghost use Rattle.cep_check.specs.Telling.{fault_text, IsTellable};
ghost use Rattle.cep_words.specs.declared.request.Task.TheVariants.{Weigh};
ghost use Rattle.cep_examine.specs.Exchange.{loaded, AsksFile};
ghost use Rattle.cep_examine.specs.Report.{line_report, code_of};
ghost use Rattle.cep_examine.specs.Unread.{no_second};
ghost use Rattle.cep_examine.specs.Reports.{Reports, most_of, ReportsSecond};
ghost use Rattle.cep_examine.specs.Outcome.{verdict_code, verdict_report, IsRenewalReport, IsLegalReport, IsLogReport};

use crate::again::report_reordering;
use crate::cause::report_graph;
use crate::claims::report_claims;
use crate::report::{Report, Status};
use cep_base::limits::{DEFAULT_SEED, MOST_LOG};
use cep_base::{Shelf, ShelfFault, Steps, Text};
use cep_cause::renew;
use cep_check::laws::refused_logs_are_not_legal;
use cep_check::{Verdict, check, put_fault, put_verdict};
use cep_claim::limits::MOST_CLAIMS;
use cep_log::laws::{one_log, renewals_have_one_text};
use cep_log::{Log, LogFault};
use cep_reader::read_log;
use cep_rule::Program;
use cep_words::Task;
use std::alloc::{AllocError, Global};
use std::sync::ledger::Ledger;

/// The status of a verdict.
fn status_of(verdict: &Verdict) -> Status
    ensures { code_of result ≡ verdict_code verdict.now }
{
    match verdict {
        Verdict::Accepted { .. } => Status::Done,
        Verdict::Refused { .. } => Status::Rejected,
    }
}

/// The report of a verdict.
fn report_verdict(alloc: Global, program: &Program, verdict: &Verdict) -> Result<Report, AllocError>
    requires { IsTellable program.now verdict.now }
    ensures { IfOk result (λ report. report ≡ verdict_report program.now verdict.now) }
{
    let mut text = Text::new(alloc);
    put_verdict(program, verdict, &mut text)?;
    Ok(Report::text(text, status_of(verdict)))
}

/// The report of a legal log that is renewed.
fn report_renewal(alloc: Global, program: &Program, log: &Log) -> Result<Report, AllocError>
    requires { IsLegal program.now log.now }
    ensures { IfOk result (λ report. IsRenewalReport program.now log.now report) }
{
    match renew(alloc, program, log)? {
        Some(text) => Ok(Report::text(text, Status::Done)),
        None => Ok(Report::line(b"refused 0 NewTooLong\n", Status::Rejected)),
    }
}

/// The report of a legal log.
fn report_legal(
    alloc: Global,
    program: &Program,
    task: Task,
    log: &Log,
    verdict: &Verdict,
) -> Result<Report, AllocError>
    requires legal { IsLegal program.now log.now }
    requires of_log { task ≢ Weigh }
    requires verdict { IsVerdict program.now log.now verdict.now }
    requires tellable { IsTellable program.now verdict.now }
    ensures { IfOk result (λ report. IsLegalReport task program.now log.now report) }
{
    match task {
        Task::Check => report_verdict(alloc, program, verdict),
        Task::Renew => report_renewal(alloc, program, log),
        Task::Cause => report_graph(alloc, program, log),
        Task::Again { seed } => {
            report_reordering(alloc, program, log, seed.unwrap_or(DEFAULT_SEED))
        }
        Task::Weigh => unreachable!(),
    }
}

/// The report of a log.
fn report_log<L: Ledger>(
    alloc: Global,
    program: &Program,
    task: Task,
    log: &Log,
    steps: &mut Steps<L>,
) -> Result<Report, AllocError>
    requires of_program { IsLogOf program.now log.now }
    requires of_log { task ≢ Weigh }
    ensures judged { IfOk result
        (λ report. IsLogReport task program.now log.now report) }
    ensures counted { steps.old ≤ steps.new }
{
    let verdict = check(alloc, program, log, steps)?;
    match verdict {
        Verdict::Accepted { .. } => report_legal(alloc, program, task, log, &verdict),
        Verdict::Refused { .. } => report_verdict(alloc, program, &verdict),
    }
}

/// The report of the first line that does not fit.
fn report_fault(alloc: Global, fault: LogFault) -> Result<Report, AllocError>
    ensures { IfOk result (λ report. report ≡ line_report (fault_text fault) 1) }
{
    let mut text = Text::new(alloc);
    put_fault(fault, &mut text)?;
    Ok(Report::text(text, Status::Rejected))
}

/// The report of the bytes of a transcript.
fn report_transcript<L: Ledger>(
    alloc: Global,
    program: &Program,
    task: Task,
    bytes: &[u8],
    steps: &mut Steps<L>,
) -> Result<Report, AllocError>
    requires short { length bytes.now ≤ MOST_LOG }
    requires of_log { task ≢ Weigh }
    ensures judged { IfOk result (λ report. Reports task program.now bytes.now report) }
    ensures counted { steps.old ≤ steps.new }
{
    one_log();
    refused_logs_are_not_legal();
    renewals_have_one_text();
    program.parts();
    match read_log(alloc, program, bytes)? {
        Ok(log) => report_log(alloc, program, task, &log, steps),
        Err(fault) => report_fault(alloc, fault),
    }
}

/// The report of the bytes of a second file.
fn report_bytes<L: Ledger>(
    alloc: Global,
    program: &Program,
    task: Task,
    bytes: &[u8],
    steps: &mut Steps<L>,
) -> Result<Report, AllocError>
    requires { length bytes.now ≤ most_of task }
    ensures judged { IfOk result (λ report. Reports task program.now bytes.now report) }
    ensures counted { steps.old ≤ steps.new }
{
    match task {
        Task::Check => report_transcript(alloc, program, task, bytes, steps),
        Task::Renew => report_transcript(alloc, program, task, bytes, steps),
        Task::Cause => report_transcript(alloc, program, task, bytes, steps),
        Task::Again { .. } => report_transcript(alloc, program, task, bytes, steps),
        Task::Weigh => report_claims(alloc, program, bytes),
    }
}

// The most bytes of the second file of a task.
fn most_of(task: Task) -> usize
    ensures { result ≡ most_of task }
{
    match task {
        Task::Check => MOST_LOG,
        Task::Renew => MOST_LOG,
        Task::Cause => MOST_LOG,
        Task::Again { .. } => MOST_LOG,
        Task::Weigh => MOST_CLAIMS,
    }
}

// The report that the second file could not be read.
fn report_unread(task: Task) -> Report
    ensures { result ≡ line_report (no_second task) 7 }
{
    match task {
        Task::Check => Report::line(b"cannot read transcript\n", Status::Unread),
        Task::Renew => Report::line(b"cannot read transcript\n", Status::Unread),
        Task::Cause => Report::line(b"cannot read transcript\n", Status::Unread),
        Task::Again { .. } => Report::line(b"cannot read transcript\n", Status::Unread),
        Task::Weigh => Report::line(b"cannot read claims\n", Status::Unread),
    }
}

/// The report of the second file, on the shelf, against a program: whether a transcript is legal,
/// or, as the task asks, its new text, its graph or its text in another order; or what claims come
/// to; or that the file could not be read. `steps` counts matching steps.
///
/// # Errors
///
/// Memory ran out.
pub fn report_second<H: Shelf, L: Ledger>(
    alloc: Global,
    program: &Program,
    task: Task,
    second: &str,
    shelf: &mut H,
    steps: &mut Steps<L>,
) -> Result<Report, AllocError>
    ensures reported { IfOk result (λ report.
        ReportsSecond (loaded H.files H.asked H.faults shelf.old shelf.new) task program.now
        second.now report) }
    ensures asked { AsksFile (loaded H.files H.asked H.faults shelf.old shelf.new) second.now
        result }
    ensures files { H.files shelf.new ≡ H.files shelf.old }
    ensures counted { steps.old ≤ steps.new }
{
    match shelf.load(alloc, second, most_of(task)) {
        Ok(bytes) => report_bytes(alloc, program, task, &bytes, steps),
        Err(ShelfFault::TooLong) => Ok(Report::line(b"refused 0 TooLong\n", Status::Rejected)),
        Err(ShelfFault::Failed) => Ok(report_unread(task)),
        Err(ShelfFault::Memory(error)) => Err(error),
    }
}
