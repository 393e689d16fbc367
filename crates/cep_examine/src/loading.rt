// Reads the text of a program, and reports why there is none.
ghost use Rattle.std.specs.Prelude.{◌≡◌, ◌++◌, IfOk, OnOk};
ghost use Rattle.cep_lines.specs.Lines.{line};
ghost use Rattle.cep_examine.specs.Exchange.{loaded, AsksFile};
ghost use Rattle.cep_examine.specs.Report.{line_report};
ghost use Rattle.cep_examine.specs.Loading.{refusal_text, IsFoundInText, IsFoundInFile};

use crate::report::{Report, Status};
use cep_base::limits::MOST_TEXT;
use cep_base::{Shelf, ShelfFault, Text};
use cep_ground::laws::{
    a_text_with_nothing_wrong_is_a_program, no_program_is_refused, one_program, one_refusal,
};
use cep_ground::{accept, too_long};
use cep_refusal::Refusal;
use cep_rule::Program;
use std::alloc::{AllocError, Global};

// The line of a refusal.
#[tactic(auto, using(std::proofs::Common::append_assoc), unfolding(crate::specs::Loading::refusal_text))]
fn put_refusal(out: &mut Text, refusal: Refusal) -> Result<(), AllocError>
    ensures { OnOk result (out.new ≡ out.old ++ line (refusal_text refusal)) }
{
    out.append(b"refused ")?;
    out.number(u64::from(refusal.pos.line))?;
    out.append(b":")?;
    out.number(u64::from(refusal.pos.col))?;
    out.append(b" ")?;
    out.number(u64::from(refusal.reason.number()))?;
    out.append(b" ")?;
    out.append(refusal.reason.name().as_bytes())?;
    out.append(b"\n")
}

/// The report of a refusal.
fn report_refusal(alloc: Global, refusal: Refusal) -> Result<Report, AllocError>
    ensures { IfOk result (λ report. report ≡ line_report (refusal_text refusal) 3) }
{
    let mut line = Text::new(alloc);
    put_refusal(&mut line, refusal)?;
    Ok(Report::text(line, Status::Refused))
}

/// The program that a text spells, or else the report of its refusal: `refused LINE:COL NUMBER NAME`.
///
/// # Errors
///
/// Memory ran out.
pub fn program_of(alloc: Global, text: &[u8]) -> Result<Result<Program, Report>, AllocError>
    ensures { IfOk result (IsFoundInText text.now) }
{
    one_program();
    no_program_is_refused();
    a_text_with_nothing_wrong_is_a_program();
    one_refusal();
    match accept(alloc, text)? {
        Ok(program) => Ok(Ok(program)),
        Err(refusal) => Ok(Err(report_refusal(alloc, refusal)?)),
    }
}

/// The program in a file of the shelf, or else the report why there is none: its text is refused, or
/// the file could not be read.
///
/// # Errors
///
/// Memory ran out.
pub fn program_in<H: Shelf>(
    alloc: Global,
    file: &str,
    shelf: &mut H,
) -> Result<Result<Program, Report>, AllocError>
    ensures found { IfOk result
        (IsFoundInFile (loaded H.files H.asked H.faults shelf.old shelf.new) file.now) }
    ensures asked { AsksFile (loaded H.files H.asked H.faults shelf.old shelf.new) file.now result }
    ensures files { H.files shelf.new ≡ H.files shelf.old }
{
    no_program_is_refused();
    one_refusal();
    match shelf.load(alloc, file, MOST_TEXT) {
        Ok(text) => program_of(alloc, &text),
        Err(ShelfFault::TooLong) => Ok(Err(report_refusal(alloc, too_long())?)),
        Err(ShelfFault::Failed) => Ok(Err(Report::line(b"cannot read program\n", Status::Unread))),
        Err(ShelfFault::Memory(error)) => Err(error),
    }
}
