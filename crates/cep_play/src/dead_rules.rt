// Reports the dead rules of the program in a file.
ghost use Rattle.std.specs.Prelude.{◌≡◌, ◌⊎◌, IfOk};
ghost use Rattle.cep_examine.specs.Exchange.{loaded, AsksFile};
ghost use Rattle.cep_examine.specs.Loading.{ReportsNone};
ghost use Rattle.cep_play.specs.Outcome.{ReportsDeadIn};

use cep_base::Shelf;
use cep_examine::{Report, program_in, report_dead};
use std::alloc::{AllocError, Global};

/// The report of the dead rules of the program in a file of the shelf.
pub(crate) fn report_dead_in<H: Shelf>(
    alloc: Global,
    file: &str,
    shelf: &mut H,
) -> Result<Report, AllocError>
    ensures reported { IfOk result (λ report. ReportsNone
        (loaded H.files H.asked H.faults shelf.old shelf.new) file.now report
        ⊎ ReportsDeadIn (loaded H.files H.asked H.faults shelf.old shelf.new) file.now
        report) }
    ensures asked { AsksFile (loaded H.files H.asked H.faults shelf.old shelf.new) file.now result }
    ensures files { H.files shelf.new ≡ H.files shelf.old }
{
    match program_in(alloc, file, shelf)? {
        Ok(program) => report_dead(alloc, &program),
        Err(report) => Ok(report),
    }
}
