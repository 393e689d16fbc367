// Reads a transcript line by line.
ghost use Rattle.std.specs.Prelude.{◌≡◌, ◌≤◌, ◌↔◌, ℕ, length, IfOk, IfSome, IfNone, IfErr, IsTrue};
ghost use Rattle.cep_log.specs.declared.so_far.SoFar.{SoFar};
ghost use Rattle.cep_log.specs.Legal.{IsLogOf};
ghost use Rattle.cep_log.specs.Transcript.{Becomes, MovesOn, MayStep, HasLog, HasMisfit, IsFaultOf};
ghost use Rattle.cep_reader.specs.Growing.{CanGrow};

use crate::growing::{
    behind_end, behind_listed, behind_part, behind_unlisted, behind_whole, finished, log_begun,
};
use crate::line_kinds::{height_line, is_passed_over, names_no_rule, stage_line, version_line};
use bstr::ByteSlice;
use cep_base::limits::MOST_LOG;
use cep_log::{Log, LogFault, SoFar};
use cep_rule::Program;
use cep_term::laws::order_is_total;
use cep_text::Vocabulary;
use std::alloc::{AllocError, Global};

/// The log that a transcript says, or else the first line of the bytes that does not fit. The bytes
/// are at most 67,108,864. The grammar is this profile's, in both versions: an LF ends a line, and a CR
/// directly before it is dropped; the last line may lack its LF where it is not empty, and then
/// keeps its CR. Lines are counted from 1, and one that begins with `?` is counted and passed over.
/// The log is of the program; whether it is legal is left open.
///
/// `LogFault::NoRule` comes where a step may stand, and the line begins like one, of a rule that the
/// program has not got; `LogFault::Line` comes at every other line that does not fit, and at the
/// line after the last where the header or the own lines of a step are not complete. Besides these
/// only out of memory is refused.
pub fn read_log(
    alloc: Global,
    program: &Program,
    bytes: &[u8],
) -> Result<Result<Log, LogFault>, AllocError>
    requires { length bytes.now ≤ MOST_LOG }
    ensures log { IfOk result (λ read. IfOk read (HasLog program.now bytes.now)) }
    ensures of_program { IfOk result (λ read. IfOk read (IsLogOf program.now)) }
    ensures fault { IfOk result (λ read. IfErr read (HasMisfit program.now bytes.now)) }
{
    let vocabulary = Vocabulary::of(alloc, program)?;
    read_by(alloc, &vocabulary, bytes)
}

// The same, of the program of a vocabulary.
fn read_by(
    alloc: Global,
    vocabulary: &Vocabulary,
    bytes: &[u8],
) -> Result<Result<Log, LogFault>, AllocError>
    requires { length bytes.now ≤ MOST_LOG }
    ensures log { IfOk result (λ read. IfOk read (HasLog vocabulary.now bytes.now)) }
    ensures of_program { IfOk result (λ read. IfOk read (IsLogOf vocabulary.now)) }
    ensures fault { IfOk result (λ read. IfErr read (HasMisfit vocabulary.now bytes.now)) }
{
    order_is_total();
    let mut so_far = SoFar::Nothing;
    let mut number = 0;
    for line in bytes.lines() {
        number += 1;
        match passed(alloc, vocabulary, number, line, so_far)? {
            Ok(next) => so_far = next,
            Err(fault) => return Ok(Err(fault)),
        }
    }
    match finished(so_far, number)? {
        Some(log) => Ok(Ok(log)),
        None => Ok(Err(LogFault::Line { line: number + 1 })),
    }
}

// What was read with one line more, or why the line does not fit.
fn passed(
    alloc: Global,
    vocabulary: &Vocabulary,
    number: u32,
    line: &[u8],
    so_far: SoFar,
) -> Result<Result<SoFar, LogFault>, AllocError>
    requires { CanGrow vocabulary.now so_far }
    ensures taken { IfOk result (λ read.
        IfOk read (MovesOn vocabulary.now number line.now so_far)) }
    ensures nowhere { IfOk result (λ read.
        IfErr read (λ fault. (new : SoFar)
        → ¬ (MovesOn vocabulary.now number line.now so_far new))) }
    ensures fault { IfOk result (λ read.
        IfErr read (IsFaultOf vocabulary.now number line.now so_far)) }
{
    if is_passed_over(line) {
        return Ok(Ok(so_far));
    }
    let may_step = may_step(&so_far);
    match taken(alloc, vocabulary, number, line, so_far)? {
        Some(next) => Ok(Ok(next)),
        None => Ok(Err(fault_of(vocabulary, number, line, may_step))),
    }
}

// Whether a step may stand next.
fn may_step(so_far: &SoFar) -> bool
    ensures { IsTrue result ↔ MayStep so_far.now }
{
    matches!(so_far, SoFar::Whole(_) | SoFar::Listed(_, _, _))
}

// Why the line does not fit, by whether a step may stand there.
fn fault_of(vocabulary: &Vocabulary, number: u32, line: &[u8], may_step: bool) -> LogFault
    ensures { (so_far : SoFar) → (IsTrue may_step ↔ MayStep so_far)
        → IsFaultOf vocabulary.now number line.now so_far result }
{
    if may_step && names_no_rule(vocabulary, line) {
        LogFault::NoRule { line: number }
    } else {
        LogFault::Line { line: number }
    }
}

// What was read with a line more that is not passed over, if it fits.
fn taken(
    alloc: Global,
    vocabulary: &Vocabulary,
    number: u32,
    line: &[u8],
    so_far: SoFar,
) -> Result<Option<SoFar>, AllocError>
    requires { CanGrow vocabulary.now so_far }
    ensures some { IfOk result (λ read.
        IfSome read (Becomes vocabulary.now number line.now so_far)) }
    ensures none { IfOk result (λ read.
        IfNone read ((new : SoFar) → ¬ (Becomes vocabulary.now number line.now so_far new))) }
{
    match so_far {
        SoFar::Nothing => Ok(version_line(line).map(SoFar::Begun)),
        SoFar::Begun(version) => match height_line(line) {
            Some(height) => Ok(Some(SoFar::Height { version, height })),
            None => Ok(None),
        },
        SoFar::Height { version, height } => match stage_line(vocabulary, line) {
            Some(stage) => {
                let log = log_begun(alloc, version, height, number, stage);
                Ok(Some(SoFar::Whole(log)))
            }
            None => Ok(None),
        },
        SoFar::Whole(log) => behind_whole(alloc, vocabulary, number, line, log),
        SoFar::Within(log, step) => behind_part(alloc, vocabulary, line, log, step),
        SoFar::Unlisted(log, step) => Ok(behind_unlisted(alloc, number, line, log, step)),
        SoFar::Listed(log, step, mid) => {
            behind_listed(alloc, vocabulary, number, line, log, step, mid)
        }
        SoFar::Ended(log, end) => behind_end(alloc, vocabulary, line, log, end),
    }
}
