// Writes what claims about weights come to.
ghost use Rattle.std.specs.Prelude.{◌≡◌, ◌++◌, codes, slice_get, Some, None, OnOk};
ghost use Rattle.std.specs.List.{AllByRecursion, flat_map, list_all};
ghost use Rattle.std.specs.Fmt.{signed_decimal};
ghost use Rattle.std.specs.Int.{is_positive};
ghost use Rattle.cep_lines.specs.Lines.{line};
ghost use Rattle.cep_claim.specs.Factors.{IsFactor};
ghost use Rattle.cep_weigh.specs.Weights.{IsWeightOf};
ghost use Rattle.cep_report.specs.ClaimLines.{fault_line, fault_name, claim_fault_text, bound_line, bound_lines, claim_lines_of};

use crate::names::{predicate_name, rule_name};
use cep_base::Text;
use cep_claim::{Claim, KeepFault, Part, Weight};
use cep_rule::Program;
use cep_weigh::{Against, start_weight};
use std::alloc::AllocError;

// A number in decimal, with `-` before it if it is negative.
fn put_signed(out: &mut Text, number: i64) -> Result<(), AllocError>
    ensures { OnOk result (out.new ≡ out.old ++ signed_decimal number) }
{
    if number < 0 {
        out.append(b"-")?;
    }
    out.number(number.unsigned_abs())
}

// The line of a bound.
#[tactic(auto, using(std::proofs::Common::append_assoc))]
fn put_bound(program: &Program, weight: i64, part: &Part, out: &mut Text) -> Result<(), AllocError>
    requires { IsFactor part.now.factor }
    ensures { OnOk result (out.new ≡ out.old ++ bound_line program.now weight part.now) }
{
    out.append(b"bound ")?;
    out.append(predicate_name(program, part.pred))?;
    out.append(b" ")?;
    out.number(weight.unsigned_abs() / part.factor.unsigned_abs())?;
    out.append(b"\n")
}

// Whether all factors are positive.
fn are_positive(parts: &[Part]) -> bool
    ensures { result ≡ list_all (λ part. is_positive part.factor) parts.now }
{
    parts.iter().all(|part| part.factor.is_positive())
}

// The bounds of all parts.
fn put_all_bounds(
    program: &Program,
    weight: i64,
    parts: &[Part],
    out: &mut Text,
) -> Result<(), AllocError>
    requires { AllByRecursion (λ part. IsFactor part.factor) parts.now }
    ensures { OnOk result
        (out.new ≡ out.old ++ flat_map (bound_line program.now weight) parts.now) }
{
    for i in 0..parts.len() {
        put_bound(program, weight, &parts[i], out)?;
    }
    Ok(())
}

// The bounds of all parts, if all factors are positive.
fn put_bounds(
    program: &Program,
    weight: i64,
    parts: &[Part],
    out: &mut Text,
) -> Result<(), AllocError>
    requires { AllByRecursion (λ part. IsFactor part.factor) parts.now }
    ensures { OnOk result (out.new ≡ out.old ++ bound_lines program.now weight parts.now) }
{
    if are_positive(parts) {
        put_all_bounds(program, weight, parts, out)
    } else {
        Ok(())
    }
}

// The line of the most turns that a run has.
#[tactic(auto, using(std::proofs::Common::append_assoc))]
fn put_turns(weight: i64, out: &mut Text) -> Result<(), AllocError>
    ensures { OnOk result (out.new ≡ out.old ++ line (codes "turns " ++ signed_decimal weight)) }
{
    out.append(b"turns ")?;
    put_signed(out, weight)?;
    out.append(b"\n")
}

// The lines of a claim that each rule keeps.
#[tactic(auto, using(std::proofs::Common::append_assoc))]
fn put_kept(program: &Program, weight: &Weight, out: &mut Text) -> Result<(), AllocError>
    requires { IsWeightOf program.now weight.now }
    ensures { OnOk result (out.new ≡ out.old ++ claim_lines_of program.now weight.now None) }
{
    let total = start_weight(program, weight);
    out.append(b"yes ")?;
    out.append(weight.name.bytes())?;
    out.append(b" ")?;
    put_signed(out, total)?;
    out.append(b"\n")?;
    match weight.claim {
        Claim::Keep => put_bounds(program, total, weight.sum.as_slice(), out),
        Claim::Most => put_bounds(program, total, weight.sum.as_slice(), out),
        Claim::Fall => put_turns(total, out),
    }
}

// The line of a claim that a rule breaks.
#[tactic(auto, using(std::proofs::Common::append_assoc))]
fn put_broken(
    program: &Program,
    weight: &Weight,
    against: Against,
    out: &mut Text,
) -> Result<(), AllocError>
    ensures { OnOk result (out.new
        ≡ out.old ++ claim_lines_of program.now weight.now (Some against)) }
{
    out.append(b"no ")?;
    out.append(weight.name.bytes())?;
    out.append(b" ")?;
    out.append(rule_name(program, against.rule))?;
    out.append(b" ")?;
    put_signed(out, against.left)?;
    out.append(b" ")?;
    put_signed(out, against.right)?;
    out.append(b"\n")
}

/// The lines of a claim: `yes NAME WEIGHT`, with the weight of the start, and then what follows from
/// it, or `no NAME RULE LEFT RIGHT` of the first rule that breaks it, with both sums. This form is the
/// profile's.
///
/// # Errors
///
/// Out of memory alone.
pub fn put_claim(
    program: &Program,
    weight: &Weight,
    judged: Option<Against>,
    out: &mut Text,
) -> Result<(), AllocError>
    requires { IsWeightOf program.now weight.now }
    ensures { OnOk result (out.new ≡ out.old ++ claim_lines_of program.now weight.now judged) }
{
    match judged {
        Some(against) => put_broken(program, weight, against, out),
        None => put_kept(program, weight, out),
    }
}

/// The line `refused LINE NAME` of the first line of a file of claims that says no claim. This form
/// is the profile's.
///
/// # Errors
///
/// Out of memory alone.
#[tactic(auto, using(std::proofs::Common::append_assoc))]
pub fn put_claim_fault(fault: KeepFault, out: &mut Text) -> Result<(), AllocError>
    ensures { OnOk result (out.new ≡ out.old ++ line (claim_fault_text fault)) }
{
    out.append(b"refused ")?;
    out.number(u64::from(fault_line(fault)))?;
    out.append(b" ")?;
    out.append(fault_name(fault))?;
    out.append(b"\n")
}

// The line of a fault.
fn fault_line(fault: KeepFault) -> u32
    ensures { result ≡ fault_line fault }
{
    match fault {
        KeepFault::Keep { line } => line,
        KeepFault::KeepName { line } => line,
        KeepFault::KeepTwice { line } => line,
        KeepFault::KeepSign { line } => line,
    }
}

// The name of a fault.
fn fault_name(fault: KeepFault) -> &'static [u8]
    ensures { result.now ≡ fault_name fault }
{
    match fault {
        KeepFault::Keep { .. } => b"Keep",
        KeepFault::KeepName { .. } => b"KeepName",
        KeepFault::KeepTwice { .. } => b"KeepTwice",
        KeepFault::KeepSign { .. } => b"KeepSign",
    }
}
