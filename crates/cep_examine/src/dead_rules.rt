// Reports the dead rules of a program.
ghost use Rattle.std.specs.Prelude.{IfOk};
ghost use Rattle.cep_examine.specs.DeadRules.{ReportsDead};

use crate::report::{Report, Status};
use cep_base::Text;
use cep_dead::dead;
use cep_report::put_deads;
use cep_rule::Program;
use std::alloc::{AllocError, Global};

/// The report of the dead rules of a program: a line for each, and how many there are.
///
/// # Errors
///
/// Memory ran out.
pub fn report_dead(alloc: Global, program: &Program) -> Result<Report, AllocError>
    ensures { IfOk result (λ report. ReportsDead program.now report) }
{
    let deads = dead(alloc, program)?;
    let mut text = Text::new(alloc);
    put_deads(program, &deads, &mut text)?;
    Ok(Report::text(text, Status::Done))
}
