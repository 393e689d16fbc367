// Reports a transcript whose steps are done in another order.
ghost use Rattle.std.specs.Prelude.{◌≡◌, IfOk};
ghost use Rattle.cep_log.specs.Legal.{IsLegal};
ghost use Rattle.cep_examine.specs.Report.{line_report};
ghost use Rattle.cep_examine.specs.Again.{unfit_text, reordered_report, ReportsReordering};

use crate::report::{Report, Status};
use cep_base::Text;
use cep_cause::Reordered;
use cep_graph::reorder;
use cep_log::Log;
use cep_rule::Program;
use std::alloc::{AllocError, Global};

// The report of the first step of an order that leads to a state that does not fit.
#[tactic(auto, using(std::proofs::Common::append_assoc))]
fn report_unfit(alloc: Global, number: u32) -> Result<Report, AllocError>
    ensures { IfOk result (λ report. report ≡ line_report (unfit_text number) 5) }
{
    let mut text = Text::new(alloc);
    text.append(b"unfit ")?;
    text.number(u64::from(number))?;
    text.append(b"\n")?;
    Ok(Report::text(text, Status::Unfit))
}

// The report of what a log comes to in an order.
fn report_reordered(alloc: Global, reordered: Reordered) -> Result<Report, AllocError>
    ensures { IfOk result (λ report. report ≡ reordered_report reordered) }
{
    match reordered {
        Reordered::Done(text) => Ok(Report::text(text, Status::Done)),
        Reordered::Unfit { at } => report_unfit(alloc, at),
        Reordered::TooLong => Ok(Report::line(b"refused 0 NewTooLong\n", Status::Rejected)),
    }
}

/// The report of a legal log whose steps are done in the order that a seed gives: its text in that
/// order, or why there is none.
pub(crate) fn report_reordering(
    alloc: Global,
    program: &Program,
    log: &Log,
    seed: u64,
) -> Result<Report, AllocError>
    requires { IsLegal program.now log.now }
    ensures { IfOk result (λ report.
        ReportsReordering program.now log.now seed report) }
{
    let reordered = reorder(alloc, program, log, seed)?;
    report_reordered(alloc, reordered)
}
