// Writes the lines of a deed: its step, what proves its backward premises, the stage that it leads to, and the
// listing of the state after it.
ghost use Rattle.std.specs.Prelude.{◌≡◌, ◌<◌, ◌++◌, length, map, IfSome, OnOk, OnErr};
ghost use Rattle.std.specs.List.{AllByRecursion};
ghost use Rattle.cep_rule.specs.State.{IsState};
ghost use Rattle.cep_rule.specs.Derivations.{proof_of};
ghost use Rattle.cep_rule.specs.Shapes.{IsOfferOf, IsProofOf};
ghost use Rattle.cep_text.specs.Writing.{IsBegun};
ghost use Rattle.cep_lines.specs.Lines.{step_line, by_line, by_lines, next_line, step_lines, expected_listing, deed_lines};

use crate::lines::{put_mid, put_stage};
use crate::version::Version;
use cep_base::Text;
use cep_rule::{Derivation, Offer, Program};
use cep_term::Bag;
use cep_text::{put_offer, put_proof};
use std::alloc::AllocError;

/// The line of a step.
#[tactic(auto, using(std::proofs::Common::append_assoc), unfolding(crate::specs::Lines::step_line))]
pub fn put_step(program: &Program, offer: &Offer, out: &mut Text) -> Result<(), AllocError>
    requires { IsOfferOf program.now offer.now }
    ensures ok { OnOk result (out.new ≡ out.old ++ step_line program.now offer.now) }
    ensures err { OnErr result (IsBegun out.old (step_line program.now offer.now) out.new) }
{
    out.append(b"step ")?;
    put_offer(program, offer, out)?;
    out.append(b"\n")
}

/// The line of a derivation that proves a backward premise of a step.
#[tactic(auto, using(std::proofs::Common::append_assoc), unfolding(crate::specs::Lines::by_line))]
pub fn put_by(program: &Program, proof: &Derivation, out: &mut Text) -> Result<(), AllocError>
    requires { IsProofOf program.now (proof_of proof.now) }
    ensures ok { OnOk result (out.new ≡ out.old ++ by_line program.now (proof_of proof.now)) }
    ensures err { OnErr result (IsBegun out.old
        (by_line program.now (proof_of proof.now)) out.new) }
{
    out.append(b"by ")?;
    put_proof(program, proof, out)?;
    out.append(b"\n")
}

// A line for each derivation, in order.
fn put_proofs(program: &Program, proofs: &[Derivation], out: &mut Text) -> Result<(), AllocError>
    requires { AllByRecursion (IsProofOf program.now) (map proof_of proofs.now) }
    ensures ok { OnOk result (out.new ≡ out.old ++ by_lines program.now (map proof_of proofs.now)) }
    ensures err { OnErr result (IsBegun out.old
        (by_lines program.now (map proof_of proofs.now)) out.new) }
{
    for proof in proofs {
        put_by(program, proof, out)?;
    }
    Ok(())
}

// The line of the stage that a step leads to, where it leads to another.
fn put_next(program: &Program, next: Option<u32>, out: &mut Text) -> Result<(), AllocError>
    requires { IfSome next (λ stage. stage < length program.now.stages) }
    ensures ok { OnOk result (out.new ≡ out.old ++ next_line program.now next) }
    ensures err { OnErr result (IsBegun out.old (next_line program.now next) out.new) }
{
    match next {
        Some(stage) => put_stage(program, stage, out),
        None => Ok(()),
    }
}

/// What version 2 has after the lines of the step of this number: after each hundredth the listing of
/// the state after it, and after any other nothing.
#[tactic(auto, unfolding(crate::specs::Lines::expected_listing))]
pub fn put_expected_listing(
    program: &Program,
    number: u32,
    state: &Bag,
    out: &mut Text,
) -> Result<(), AllocError>
    requires { IsState program.now.signature state.now }
    ensures ok { OnOk result (out.new
        ≡ out.old ++ expected_listing program.now.signature number state.now) }
    ensures err { OnErr result (IsBegun out.old
        (expected_listing program.now.signature number state.now) out.new) }
{
    if Version::Two.lists(number) {
        put_mid(program, number, state, out)
    } else {
        Ok(())
    }
}

/// The lines of a step: its own, one for what proves each of its backward premises, in written order, and
/// that of the stage that it leads to, where it leads to another.
#[tactic(auto, using(std::proofs::Common::append_assoc), unfolding(crate::specs::Lines::step_lines))]
pub fn put_step_lines(
    program: &Program,
    offer: &Offer,
    proofs: &[Derivation],
    next: Option<u32>,
    out: &mut Text,
) -> Result<(), AllocError>
    requires offer { IsOfferOf program.now offer.now }
    requires proofs { AllByRecursion (IsProofOf program.now) (map proof_of proofs.now) }
    requires next { IfSome next (λ stage. stage < length program.now.stages) }
    ensures ok { OnOk result (out.new
        ≡ out.old ++ step_lines program.now offer.now (map proof_of proofs.now) next) }
    ensures err { OnErr result (IsBegun out.old
        (step_lines program.now offer.now (map proof_of proofs.now) next) out.new) }
{
    put_step(program, offer, out)?;
    put_proofs(program, proofs, out)?;
    put_next(program, next, out)
}

/// All lines of a deed in version 2: those of its step, and, after each hundredth step, the listing of the
/// state where it leads. The number is that of the step, counted from 1, and the state is the one where it
/// leads.
#[tactic(auto, using(std::proofs::Common::append_assoc), unfolding(crate::specs::Lines::deed_lines))]
pub fn put_deed(
    program: &Program,
    offer: &Offer,
    proofs: &[Derivation],
    next: Option<u32>,
    number: u32,
    state: &Bag,
    out: &mut Text,
) -> Result<(), AllocError>
    requires offer { IsOfferOf program.now offer.now }
    requires proofs { AllByRecursion (IsProofOf program.now) (map proof_of proofs.now) }
    requires next { IfSome next (λ stage. stage < length program.now.stages) }
    requires state { IsState program.now.signature state.now }
    ensures ok { OnOk result
        (out.new ≡ out.old ++ deed_lines program.now offer.now
        (map proof_of proofs.now) next number state.now) }
    ensures err { OnErr result
        (IsBegun out.old (deed_lines program.now offer.now
        (map proof_of proofs.now) next number state.now) out.new) }
{
    put_step_lines(program, offer, proofs, next, out)?;
    put_expected_listing(program, number, state, out)
}
