// Reports the graph of a transcript.
ghost use Rattle.std.specs.Prelude.{IfOk};
ghost use Rattle.cep_log.specs.Legal.{IsLegal};
ghost use Rattle.cep_examine.specs.Cause.{ReportsGraph};

use crate::report::{Report, Status};
use cep_base::Text;
use cep_graph::graph;
use cep_log::Log;
use cep_report::put_causes;
use cep_rule::Program;
use std::alloc::{AllocError, Global};

/// The report of the graph of a legal log: a line for each step.
pub(crate) fn report_graph(
    alloc: Global,
    program: &Program,
    log: &Log,
) -> Result<Report, AllocError>
    requires { IsLegal program.now log.now }
    ensures { IfOk result (λ report. ReportsGraph program.now log.now report) }
{
    let causes = graph(alloc, program, log)?;
    let mut text = Text::new(alloc);
    put_causes(causes.as_slice(), &mut text)?;
    Ok(Report::text(text, Status::Done))
}
