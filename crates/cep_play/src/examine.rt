// Examines a second file against the program in a first: a transcript, or a file of claims.
ghost use Rattle.std.specs.Prelude.{◌≡◌, ◌⊎◌, ◌≤◌, IfOk, OnErr};
ghost use Rattle.cep_words.specs.Words.{Examine};
ghost use Rattle.cep_examine.specs.Exchange.{loaded};
ghost use Rattle.cep_play.specs.Command.{AsksUpTo};
ghost use Rattle.cep_play.specs.Outcome.{IsReportOf};

use cep_base::{Shelf, Steps};
use cep_examine::laws::one_status;
use cep_examine::{Report, program_in, report_second};
use cep_words::Task;
use std::alloc::{AllocError, Global};
use std::sync::ledger::Ledger;

/// The report of the second file, against the program in the first, both on the shelf: whether a
/// transcript is legal, or, as the task asks, its new text, its graph or its text in another order; or
/// what claims come to.
pub(crate) fn examine<H: Shelf, L: Ledger>(
    alloc: Global,
    task: Task,
    file: &str,
    second: &str,
    shelf: &mut H,
    steps: &mut Steps<L>,
) -> Result<Report, AllocError>
    ensures reported { IfOk result (λ report. IsReportOf (Examine task file.now second.now)
        (loaded H.files H.asked H.faults shelf.old shelf.new) steps.old steps.new
        report) }
    ensures asked { OnErr result (AsksUpTo (loaded H.files H.asked H.faults shelf.old shelf.new)
        (Examine task file.now second.now) ⊎ (H.asked shelf.new ≡ H.asked shelf.old)) }
    ensures files { H.files shelf.new ≡ H.files shelf.old }
    ensures counted { steps.old ≤ steps.new }
{
    one_status();
    match program_in(alloc, file, shelf)? {
        Ok(program) => report_second(alloc, &program, task, second, shelf, steps),
        Err(report) => Ok(report),
    }
}
