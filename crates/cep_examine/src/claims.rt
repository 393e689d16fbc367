// Reports what a file of claims says of the rules of a program.
ghost use Rattle.std.specs.Prelude.{◌≡◌, ◌≤◌, length, MatchOption, IfOk};
ghost use Rattle.std.specs.List.{AllByRecursion};
ghost use Rattle.cep_report.specs.ClaimLines.{claim_fault_text};
ghost use Rattle.cep_claim.specs.declared.limits.TheConstants.{MOST_CLAIMS};
ghost use Rattle.cep_weigh.specs.Weights.{IsWeightOf};
ghost use Rattle.cep_examine.specs.Report.{line_report, code_of};
ghost use Rattle.cep_examine.specs.Claims.{IsReportOfWeights, ReportsWeighing};

use crate::report::{Report, Status};
use cep_base::Text;
use cep_claim::{KeepFault, Weight};
use cep_report::{put_claim, put_claim_fault};
use cep_rule::Program;
use cep_weigh::{Against, judge, read_weights};
use std::alloc::{AllocError, Global};

// The status after one claim more.
fn status_after(status: Status, judged: Option<Against>) -> Status
    ensures { MatchOption judged (result ≡ status) (λ _. code_of result ≡ 5) }
{
    match judged {
        Some(_) => Status::Broken,
        None => status,
    }
}

// The report of claims, each judged.
fn report_weights(
    alloc: Global,
    program: &Program,
    weights: &[Weight],
) -> Result<Report, AllocError>
    requires { AllByRecursion (IsWeightOf program.now) weights.now }
    ensures { IfOk result (λ report. IsReportOfWeights program.now weights.now report) }
{
    let mut text = Text::new(alloc);
    let mut status = Status::Done;
    for i in 0..weights.len() {
        let weight = &weights[i];
        let judged = judge(program, weight);
        put_claim(program, weight, judged, &mut text)?;
        status = status_after(status, judged);
    }
    Ok(Report::text(text, status))
}

// The report of the first line that says no claim.
fn report_claim_fault(alloc: Global, fault: KeepFault) -> Result<Report, AllocError>
    ensures { IfOk result (λ report. report ≡ line_report (claim_fault_text fault) 1) }
{
    let mut text = Text::new(alloc);
    put_claim_fault(fault, &mut text)?;
    Ok(Report::text(text, Status::Rejected))
}

/// The report of the bytes of a file of claims.
pub(crate) fn report_claims(
    alloc: Global,
    program: &Program,
    bytes: &[u8],
) -> Result<Report, AllocError>
    requires { length bytes.now ≤ MOST_CLAIMS }
    ensures { IfOk result (λ report. ReportsWeighing program.now bytes.now report) }
{
    match read_weights(alloc, program, bytes)? {
        Ok(weights) => report_weights(alloc, program, weights.as_slice()),
        Err(fault) => report_claim_fault(alloc, fault),
    }
}
