// A log that grows by a line.
ghost use Rattle.std.specs.Prelude.{◌≡◌, ◌≢◌, ◌<◌, ◌↔◌, ℕ, length, None, MatchOption, IfOk, IfSome, IfNone, IsTrue};
ghost use Rattle.cep_term.specs.Tree.{AtomTree};
ghost use Rattle.cep_rule.specs.declared.rule.Rule.{Rule};
ghost use Rattle.cep_log.specs.declared.so_far.SoFar.{SoFar};
ghost use Rattle.cep_log.specs.declared.so_far.SoFar.TheVariants.{Whole, Within, Unlisted, Listed, Ended};
ghost use Rattle.cep_log.specs.Listed.{have_of};
ghost use Rattle.cep_lines.specs.Lines.{state_text};
ghost use Rattle.cep_reader.specs.Growing.{HasRoom};
ghost use Rattle.cep_log.specs.Transcript.{IsHaveLine, IsBehind, GoesOnStep, GoesOnEnd, BeginsNext, Becomes, has_own_lines, with_step, with_own, next_number, log_begun, log_listed, step_begun, mid_begun, end_begun, said_by};

use crate::line_kinds::{by_line, end_line, have_line, is_state_line, stage_line, step_line};
use cep_lines::{EndWord, Version};
use cep_log::{Have, Haves, Log, LogEnd, LogMid, LogStep, LogSteps, Proofs, SoFar};
use cep_rule::{Offer, Rule};
use cep_term::order;
use cep_text::Vocabulary;
use cep_text::laws::one_value;
use std::alloc::{AllocError, Global};

// A log of which the header was read.
pub(crate) fn log_begun(
    alloc: Global,
    version: Version,
    height: u32,
    number: u32,
    stage: u32,
) -> Log
    ensures { result ≡ log_begun version height number stage }
{
    Log {
        version,
        height,
        stage_line: number,
        stage,
        start: Haves::new(alloc),
        steps: LogSteps::new(alloc),
        end: None,
        lines: 0,
    }
}

// A step of which the first line was read.
fn step_begun(alloc: Global, number: u32, offer: Offer) -> LogStep
    ensures { result ≡ step_begun number offer }
{
    LogStep {
        line: number,
        offer,
        proofs: Proofs::new(alloc),
        stage: None,
        mid: None,
    }
}

// A listing of which the first line was read.
fn mid_begun(alloc: Global, number: u32) -> LogMid
    ensures { result ≡ mid_begun number }
{
    LogMid {
        line: number,
        state: Haves::new(alloc),
    }
}

// What the lines so far say, where a transcript may end after them.
pub(crate) fn finished(so_far: SoFar, lines: u32) -> Result<Option<Log>, AllocError>
    ensures { IfOk result (λ said. said ≡ said_by so_far lines) }
{
    match so_far {
        SoFar::Whole(mut log) => {
            log.lines = lines;
            Ok(Some(log))
        }
        SoFar::Listed(log, step, mid) => {
            let mut log = log_listed(log, step, mid)?;
            log.lines = lines;
            Ok(Some(log))
        }
        SoFar::Ended(mut log, end) => {
            log.end = Some(end);
            log.lines = lines;
            Ok(Some(log))
        }
        SoFar::Nothing => Ok(None),
        SoFar::Begun(_) => Ok(None),
        SoFar::Height { .. } => Ok(None),
        SoFar::Within(_, _) => Ok(None),
        SoFar::Unlisted(_, _) => Ok(None),
    }
}

// The log with one whole step more, which has a listing.
fn log_listed(mut log: Log, mut step: LogStep, mid: LogMid) -> Result<Log, AllocError>
    ensures { IfOk result (λ longer. longer ≡ log_listed log step mid) }
{
    step.mid = Some(mid);
    log.steps.push(step)?;
    Ok(log)
}

// A line after the start listing or after a whole step.
pub(crate) fn behind_whole(
    alloc: Global,
    vocabulary: &Vocabulary,
    number: u32,
    line: &[u8],
    mut log: Log,
) -> Result<Option<SoFar>, AllocError>
    requires { HasRoom 0 log }
    ensures some { IfOk result (λ read.
        IfSome read (Becomes vocabulary.now number line.now (Whole log))) }
    ensures none { IfOk result (λ read.
        IfNone read ((new : SoFar) → ¬ (Becomes vocabulary.now number line.now (Whole log) new))) }
{
    if !log.steps.is_empty() {
        return begun(alloc, vocabulary, number, line, log);
    }
    match next_listed(alloc, vocabulary, line, &log.start)? {
        Some(have) => {
            log.start.push(have)?;
            Ok(Some(SoFar::Whole(log)))
        }
        None => begun(alloc, vocabulary, number, line, log),
    }
}

// A line after a step with its listing.
pub(crate) fn behind_listed(
    alloc: Global,
    vocabulary: &Vocabulary,
    number: u32,
    line: &[u8],
    log: Log,
    step: LogStep,
    mut mid: LogMid,
) -> Result<Option<SoFar>, AllocError>
    requires { HasRoom 1 log }
    ensures some { IfOk result (λ read.
        IfSome read (Becomes vocabulary.now number line.now (Listed log step mid))) }
    ensures none { IfOk result (λ read.
        IfNone read ((new : SoFar)
        → ¬ (Becomes vocabulary.now number line.now (Listed log step mid) new))) }
{
    match next_listed(alloc, vocabulary, line, &mid.state)? {
        Some(have) => {
            mid.state.push(have)?;
            Ok(Some(SoFar::Listed(log, step, mid)))
        }
        None => begun(alloc, vocabulary, number, line, log_listed(log, step, mid)?),
    }
}

// The first line of a step or of the end.
fn begun(
    alloc: Global,
    vocabulary: &Vocabulary,
    number: u32,
    line: &[u8],
    log: Log,
) -> Result<Option<SoFar>, AllocError>
    requires { HasRoom 0 log }
    ensures some { IfOk result (λ read.
        IfSome read (BeginsNext vocabulary.now number line.now log)) }
    ensures none { IfOk result (λ read.
        IfNone read ((new : SoFar) → ¬ (BeginsNext vocabulary.now number line.now log new))) }
{
    if let Some(word) = end_line(line) {
        return Ok(Some(SoFar::Ended(log, end_begun(alloc, number, word))));
    }
    match step_line(alloc, vocabulary, line)? {
        Some(offer) => {
            let rule = vocabulary.parts().rules.get(offer.rule as usize);
            Ok(Some(joined(rule, log, step_begun(alloc, number, offer))?))
        }
        None => Ok(None),
    }
}

// An end of which the first line was read.
fn end_begun(alloc: Global, number: u32, word: EndWord) -> LogEnd
    ensures { result ≡ end_begun number word }
{
    LogEnd {
        line: number,
        word,
        state: Haves::new(alloc),
    }
}

// The first line of the listing after a step.
pub(crate) fn behind_unlisted(
    alloc: Global,
    number: u32,
    line: &[u8],
    log: Log,
    step: LogStep,
) -> Option<SoFar>
    requires { HasRoom 0 log }
    ensures { MatchOption result (line.now ≢ state_text (next_number log))
        (λ new. (line.now ≡ state_text (next_number log))
        × (new ≡ Listed log step (mid_begun number))) }
{
    if is_state_line(line, next_number(&log)) {
        Some(SoFar::Listed(log, step, mid_begun(alloc, number)))
    } else {
        None
    }
}

// The number of the step that stands after all of the log.
fn next_number(log: &Log) -> u32
    requires { HasRoom 0 log.now }
    ensures { result ≡ next_number log.now }
{
    log.steps.len() as u32 + 1
}

// The next derivation of a step, or its stage.
pub(crate) fn behind_part(
    alloc: Global,
    vocabulary: &Vocabulary,
    line: &[u8],
    log: Log,
    mut step: LogStep,
) -> Result<Option<SoFar>, AllocError>
    requires room { HasRoom 0 log }
    requires rule { step.offer.rule < length vocabulary.now.rules }
    ensures some { IfOk result (λ read. IfSome read (GoesOnStep vocabulary.now line.now log step)) }
    ensures none { IfOk result (λ read.
        IfNone read ((new : SoFar) → ¬ (GoesOnStep vocabulary.now line.now log step new))) }
{
    let rule = vocabulary.parts().rules.get(step.offer.rule as usize);
    if step.proofs.len() < rule.backs.len() {
        match by_line(alloc, vocabulary, line)? {
            Some(proof) => {
                step.proofs.push(proof)?;
                Ok(Some(joined(rule, log, step)?))
            }
            None => Ok(None),
        }
    } else {
        match stage_line(vocabulary, line) {
            Some(stage) => {
                step.stage = Some(stage);
                Ok(Some(joined(rule, log, step)?))
            }
            None => Ok(None),
        }
    }
}

// A line of the last listing.
pub(crate) fn behind_end(
    alloc: Global,
    vocabulary: &Vocabulary,
    line: &[u8],
    log: Log,
    mut end: LogEnd,
) -> Result<Option<SoFar>, AllocError>
    ensures some { IfOk result (λ read. IfSome read (GoesOnEnd vocabulary.now line.now log end)) }
    ensures none { IfOk result (λ read.
        IfNone read ((new : SoFar) → ¬ (GoesOnEnd vocabulary.now line.now log end new))) }
{
    match next_listed(alloc, vocabulary, line, &end.state)? {
        Some(have) => {
            end.state.push(have)?;
            Ok(Some(SoFar::Ended(log, end)))
        }
        None => Ok(None),
    }
}

// The log with the step, which may lack own lines.
fn joined(rule: &Rule, log: Log, step: LogStep) -> Result<SoFar, AllocError>
    requires { HasRoom 0 log }
    ensures { IfOk result (λ new. new ≡ with_step rule.now log step) }
{
    if has_own_lines(rule, &step) {
        with_own(log, step)
    } else {
        Ok(SoFar::Within(log, step))
    }
}

// The log with the step, which may lack its listing alone.
fn with_own(mut log: Log, step: LogStep) -> Result<SoFar, AllocError>
    requires { HasRoom 0 log }
    ensures { IfOk result (λ new. new ≡ with_own log step) }
{
    if log.version.lists(next_number(&log)) {
        return Ok(SoFar::Unlisted(log, step));
    }
    log.steps.push(step)?;
    Ok(SoFar::Whole(log))
}

// Whether the step has all its own lines but for a listing.
fn has_own_lines(rule: &Rule, step: &LogStep) -> bool
    ensures { result ≡ has_own_lines rule.now step.now }
{
    rule.backs.len() <= step.proofs.len() && (rule.next.is_none() || step.stage.is_some())
}

// The line of a listing that stands after these.
fn next_listed(
    alloc: Global,
    vocabulary: &Vocabulary,
    line: &[u8],
    haves: &Haves,
) -> Result<Option<Have>, AllocError>
    ensures some { IfOk result (λ read.
        IfSome read (λ have. IsHaveLine vocabulary.now line.now (have_of have)
        × IsBehind haves.now (have_of have).0)) }
    ensures none { IfOk result (λ read.
        IfNone read ((entry : AtomTree × ℕ) → IsHaveLine vocabulary.now line.now entry
        → IsBehind haves.now entry.0 → ⊥)) }
{
    // No line says two entries: that is known from here on.
    one_value();
    vocabulary.parts();
    match have_line(alloc, vocabulary, line)? {
        Some(have) => {
            if is_behind(haves, &have) {
                Ok(Some(have))
            } else {
                Ok(None)
            }
        }
        None => Ok(None),
    }
}

// Whether the line stands after these.
fn is_behind(haves: &Haves, have: &Have) -> bool
    ensures { IsTrue result ↔ IsBehind haves.now (have_of have.now).0 }
{
    match haves.as_slice().last() {
        None => true,
        Some(last) => order(&last.atom, &have.atom).is_lt(),
    }
}
