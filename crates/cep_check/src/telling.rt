//! Writes what checking a transcript comes to: one line, at the end of a text.
ghost use Rattle.std.specs.Prelude.{◌≡◌, ◌<◌, ◌++◌, codes, decimal, length, slice_get, OnOk, OnErr};
ghost use Rattle.cep_term.specs.Tree.{atom_of};
ghost use Rattle.cep_rule.specs.Shapes.{IsOfferOf};
ghost use Rattle.cep_text.specs.Texts.{offer_name, offer_text, IsTypedGround};
ghost use Rattle.cep_text.specs.Writing.{IsBegun};
ghost use Rattle.cep_lines.specs.Lines.{line, stage_name};
ghost use Rattle.cep_check.specs.Telling.{stages_text, copies_text, counts_text, limit_text, cause_text, refused_text, verdict_text, fault_text, IsTellableCause, IsTellable};

use crate::cause::{Cause, Verdict};
use cep_base::Text;
use cep_log::LogFault;
use cep_rule::{Offer, Program};
use cep_step::Limit;
use cep_term::Atom;
use cep_text::{put_atom, put_offer};
use std::alloc::AllocError;

/// The line of a verdict: `accepted N`, N the number of steps, or `refused LINE TEXT`, where TEXT
/// is the name of the cause and what there is to say of it. After `AllocError` a prefix of the line
/// was added, as with every writer here. The words are this profile's.
pub fn put_verdict(program: &Program, verdict: &Verdict, out: &mut Text) -> Result<(), AllocError>
    requires { IsTellable program.now verdict.now }
    ensures ok { OnOk result (out.new ≡ out.old ++ line (verdict_text program.now verdict.now)) }
    ensures err { OnErr result (IsBegun out.old
        (line (verdict_text program.now verdict.now)) out.new) }
{
    match verdict {
        Verdict::Accepted { steps } => put_accepted(*steps, out),
        Verdict::Refused { line, cause } => put_refused(program, *line, cause, out),
    }
}

/// The line of bytes that are no transcript: `refused LINE Line` or `refused LINE NoRule`. The
/// words are this profile's.
#[tactic(auto, using(std::proofs::Common::append_assoc), unfolding(crate::specs::Telling::refused_text))]
pub fn put_fault(fault: LogFault, out: &mut Text) -> Result<(), AllocError>
    ensures ok { OnOk result (out.new ≡ out.old ++ line (fault_text fault)) }
    ensures err { OnErr result (IsBegun out.old (line (fault_text fault)) out.new) }
{
    match fault {
        LogFault::Line { line } => {
            out.append(b"refused ")?;
            out.number(u64::from(line))?;
            out.append(b" Line\n")
        }
        LogFault::NoRule { line } => {
            out.append(b"refused ")?;
            out.number(u64::from(line))?;
            out.append(b" NoRule\n")
        }
    }
}

// The line of a log that is legal.
#[tactic(auto, using(std::proofs::Common::append_assoc))]
fn put_accepted(steps: u32, out: &mut Text) -> Result<(), AllocError>
    ensures ok { OnOk result (out.new ≡ out.old ++ line (codes "accepted " ++ decimal steps)) }
    ensures err { OnErr result (IsBegun out.old
        (line (codes "accepted " ++ decimal steps)) out.new) }
{
    out.append(b"accepted ")?;
    out.number(u64::from(steps))?;
    out.append(b"\n")
}

// The line of a log that is not.
#[tactic(auto, using(std::proofs::Common::append_assoc), unfolding(crate::specs::Telling::refused_text))]
fn put_refused(
    program: &Program,
    number: u32,
    cause: &Cause,
    out: &mut Text,
) -> Result<(), AllocError>
    requires { IsTellableCause program.now cause.now }
    ensures ok { OnOk result (out.new
        ≡ out.old ++ line (refused_text number (cause_text program.now cause.now))) }
    ensures err { OnErr result (IsBegun out.old
        (line (refused_text number (cause_text program.now cause.now))) out.new) }
{
    out.append(b"refused ")?;
    out.number(u64::from(number))?;
    out.append(b" ")?;
    put_cause(program, cause, out)?;
    out.append(b"\n")
}

fn put_cause(program: &Program, cause: &Cause, out: &mut Text) -> Result<(), AllocError>
    requires { IsTellableCause program.now cause.now }
    ensures ok { OnOk result (out.new ≡ out.old ++ cause_text program.now cause.now) }
    ensures err { OnErr result (IsBegun out.old (cause_text program.now cause.now) out.new) }
{
    match cause {
        Cause::StartStage { said, is } => {
            put_stages(program, b"StartStage said ", *said, *is, out)
        }
        Cause::StartState { atom, said, is } => {
            put_counts(program, b"StartState said ", *said, b" is ", *is, atom, out)
        }
        Cause::OtherStage { rule } => put_other_stage(program, b"OtherStage ", *rule, out),
        Cause::NotContained { atom, have, need } => {
            put_counts(
                program,
                b"NotContained have ",
                *have,
                b" need ",
                *need,
                atom,
                out,
            )
        }
        Cause::NotProved { premise } => put_not_proved(*premise, out),
        Cause::TooHigh { premise, height } => put_too_high(*premise, *height, out),
        Cause::NotQuiet { offer } => put_not_quiet(program, offer, out),
        Cause::OverLimit { limit } => out.append(limit_text(*limit)),
        Cause::StageLine { said, is } => {
            put_stages(program, b"StageLine said ", *said, *is, out)
        }
        Cause::MidState { atom, said, is, .. } => {
            put_counts(program, b"MidState said ", *said, b" is ", *is, atom, out)
        }
        Cause::NotEnded => out.append(b"NotEnded"),
        Cause::EndState { atom, said, is } => {
            put_counts(program, b"EndState said ", *said, b" is ", *is, atom, out)
        }
    }
}

// The stage that is said and the one that it is, after the cause's words.
#[tactic(auto, using(std::proofs::Common::append_assoc), unfolding(crate::specs::Telling::stages_text))]
fn put_stages(
    program: &Program,
    words: &[u8],
    said: u32,
    is: u32,
    out: &mut Text,
) -> Result<(), AllocError>
    requires said { said < length program.now.stages }
    requires is { is < length program.now.stages }
    ensures ok { OnOk result (out.new ≡ out.old ++ stages_text program.now words.now said is) }
    ensures err { OnErr result (IsBegun out.old
        (stages_text program.now words.now said is) out.new) }
{
    out.append(words)?;
    put_stage_name(program, said, out)?;
    out.append(b" is ")?;
    put_stage_name(program, is, out)
}

// The name of a stage.
fn put_stage_name(program: &Program, stage: u32, out: &mut Text) -> Result<(), AllocError>
    requires { stage < length program.now.stages }
    ensures ok { OnOk result (out.new
        ≡ out.old ++ stage_name (slice_get program.now.stages stage)) }
    ensures err { OnErr result (out.new ≡ out.old) }
{
    let stages = &program.parts().stages;
    out.append(stages.get(stage as usize).name.bytes())
}

// The name of a rule.
fn put_rule_name(program: &Program, rule: u32, out: &mut Text) -> Result<(), AllocError>
    requires { rule < length program.now.rules }
    ensures ok { OnOk result (out.new ≡ out.old ++ offer_name (slice_get program.now.rules rule)) }
    ensures err { OnErr result (out.new ≡ out.old) }
{
    let rules = &program.parts().rules;
    out.append(rules.get(rule as usize).name.bytes())
}

// A number of copies of the atom.
#[tactic(auto, using(std::proofs::Common::append_assoc), unfolding(crate::specs::Telling::copies_text))]
fn put_copies(program: &Program, count: u32, atom: &Atom, out: &mut Text) -> Result<(), AllocError>
    requires { IsTypedGround program.now.signature (atom_of atom.now) }
    ensures ok { OnOk result (out.new
        ≡ out.old ++ copies_text program.now.signature count (atom_of atom.now)) }
    ensures err { OnErr result (IsBegun out.old
        (copies_text program.now.signature count (atom_of atom.now)) out.new) }
{
    out.number(u64::from(count))?;
    out.append(b" ")?;
    put_atom(program, atom, out)
}

// Two numbers of copies after the cause's words, and the atom that has so many.
#[tactic(auto, using(std::proofs::Common::append_assoc), unfolding(crate::specs::Telling::counts_text))]
fn put_counts(
    program: &Program,
    words: &[u8],
    one: u32,
    between: &[u8],
    other: u32,
    atom: &Atom,
    out: &mut Text,
) -> Result<(), AllocError>
    requires { IsTypedGround program.now.signature (atom_of atom.now) }
    ensures ok { OnOk result (out.new
        ≡ out.old ++ counts_text program.now.signature words.now one between.now other
        (atom_of atom.now)) }
    ensures err { OnErr result (IsBegun out.old
        (counts_text program.now.signature words.now one between.now other (atom_of atom.now))
        out.new) }
{
    out.append(words)?;
    out.number(u64::from(one))?;
    out.append(between)?;
    put_copies(program, other, atom, out)
}

// The rule that is of another stage, after the cause's name.
#[tactic(auto, using(std::proofs::Common::append_assoc))]
fn put_other_stage(
    program: &Program,
    name: &[u8],
    rule: u32,
    out: &mut Text,
) -> Result<(), AllocError>
    requires { rule < length program.now.rules }
    ensures ok { OnOk result (out.new
        ≡ out.old ++ (name.now ++ offer_name (slice_get program.now.rules rule))) }
    ensures err { OnErr result (IsBegun out.old
        (name.now ++ offer_name (slice_get program.now.rules rule)) out.new) }
{
    out.append(name)?;
    put_rule_name(program, rule, out)
}

// The premise that its derivation does not prove.
#[tactic(auto, using(std::proofs::Common::append_assoc))]
fn put_not_proved(premise: u32, out: &mut Text) -> Result<(), AllocError>
    ensures ok { OnOk result (out.new ≡ out.old ++ (codes "NotProved " ++ decimal premise)) }
    ensures err { OnErr result (IsBegun out.old (codes "NotProved " ++ decimal premise) out.new) }
{
    out.append(b"NotProved ")?;
    out.number(u64::from(premise))
}

// The premise whose derivation is too high, and how high that is.
#[tactic(auto, using(std::proofs::Common::append_assoc))]
fn put_too_high(premise: u32, height: u64, out: &mut Text) -> Result<(), AllocError>
    ensures ok { OnOk result (out.new
        ≡ out.old ++ (codes "TooHigh " ++ decimal premise ++ codes " " ++ decimal height)) }
    ensures err { OnErr result (IsBegun out.old
        (codes "TooHigh " ++ decimal premise ++ codes " " ++ decimal height) out.new) }
{
    out.append(b"TooHigh ")?;
    out.number(u64::from(premise))?;
    out.append(b" ")?;
    out.number(height)
}

// The offer that is there.
#[tactic(auto, using(std::proofs::Common::append_assoc))]
fn put_not_quiet(program: &Program, offer: &Offer, out: &mut Text) -> Result<(), AllocError>
    requires { IsOfferOf program.now offer.now }
    ensures ok { OnOk result (out.new
        ≡ out.old ++ (codes "NotQuiet " ++ offer_text program.now offer.now)) }
    ensures err { OnErr result (IsBegun out.old
        (codes "NotQuiet " ++ offer_text program.now offer.now) out.new) }
{
    out.append(b"NotQuiet ")?;
    put_offer(program, offer, out)
}

// The limit that is passed.
fn limit_text(limit: Limit) -> &'static [u8]
    ensures { result.now ≡ limit_text limit }
{
    match limit {
        Limit::Atom => b"OverLimit atom",
        Limit::State => b"OverLimit state",
    }
}
