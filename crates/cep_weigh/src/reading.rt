// Reads a file of claims line by line.
ghost use Rattle.std.specs.Prelude.{◌≡◌, ◌≤◌, ◌↔◌, length, IfOk, IfErr, IsTrue};
ghost use Rattle.std.specs.List.{AllByRecursion};
ghost use Rattle.cep_claim.specs.declared.weight.Claim.TheVariants.{Fall};
ghost use Rattle.cep_weigh.specs.Weights.{IsWeightOf};
ghost use Rattle.cep_claim.specs.Written.{SaysNothing};
ghost use Rattle.cep_weigh.specs.Claims.{IsClaimOf, IsClaimFault, AddsLine, HasClaims, HasFault};
ghost use Rattle.cep_claim.specs.Tables.{NamesLinear};

use crate::claims::Claims;
use crate::laws::one_reading;
use bstr::ByteSlice;
use cep_base::FirstNames;
use cep_claim::limits::MOST_CLAIMS;
use cep_claim::{
    Claim, KeepFault, Weight, Weights, Written, are_apart, are_not_negative, linear_names,
    numbered, says_nothing, written_as,
};
use cep_rule::{Program, Signature};
use std::alloc::{AllocError, Global};

/// The weights that the lines of a file of claims say, in their order, or the fault of the first
/// line that says no claim. The bytes are at most 1,048,576. The format is this profile's: an LF
/// ends a line, and a CR directly before it is dropped; the last line may lack its LF, and then
/// keeps its CR. Lines are counted from 1. One that is empty or begins with `%` says nothing, and
/// each other one is `keep`, `most` or `fall`, a name, `=`, and one or more parts with `+` between
/// two, each a factor and the name of a linear predicate, with single spaces between words.
///
/// Of a line's faults the first in the order of `KeepFault` is answered. Besides, only out of
/// memory is refused.
pub fn read_weights(
    alloc: Global,
    program: &Program,
    bytes: &[u8],
) -> Result<Result<Weights, KeepFault>, AllocError>
    requires { length bytes.now ≤ MOST_CLAIMS }
    ensures claims { IfOk result (λ read. IfOk read (HasClaims program.now bytes.now)) }
    ensures of_program { IfOk result
        (λ read. IfOk read (AllByRecursion (IsWeightOf program.now))) }
    ensures fault { IfOk result (λ read. IfErr read (HasFault program.now bytes.now)) }
{
    one_reading();
    let signature = &program.parts().signature;
    let linear = linear_names(alloc, signature)?;
    let mut claims = Claims::new(alloc);
    let mut number = 0;
    for line in bytes.lines() {
        number += 1;
        match after_line(alloc, signature, &linear, claims, number, line)? {
            Ok(after) => claims = after,
            Err(fault) => return Ok(Err(fault)),
        }
    }
    Ok(Ok(claims.weights()))
}

// The claims with that of one more line, if it says one, or why it says none.
fn after_line(
    alloc: Global,
    signature: &Signature,
    linear: &FirstNames<u32>,
    claims: Claims,
    number: u32,
    line: &[u8],
) -> Result<Result<Claims, KeepFault>, AllocError>
    requires { NamesLinear signature.now linear.now }
    ensures after { IfOk result
        (λ read. IfOk read (AddsLine signature.now number line.now claims)) }
    ensures fault { IfOk result
        (λ read. IfErr read
        (λ fault. (¬ SaysNothing line.now)
        × IsClaimFault signature.now claims line.now number fault)) }
{
    if says_nothing(line) {
        return Ok(Ok(claims));
    }
    match claim_of(alloc, signature, linear, &claims, number, line)? {
        Ok(weight) => Ok(Ok(claims.and(weight)?)),
        Err(fault) => Ok(Err(fault)),
    }
}

// The claim that the line says, or why it says none.
fn claim_of(
    alloc: Global,
    signature: &Signature,
    linear: &FirstNames<u32>,
    claims: &Claims,
    number: u32,
    line: &[u8],
) -> Result<Result<Weight, KeepFault>, AllocError>
    requires { NamesLinear signature.now linear.now }
    ensures claim { IfOk result
        (λ read. IfOk read (IsClaimOf signature.now claims.now line.now number)) }
    ensures fault { IfOk result
        (λ read. IfErr read (IsClaimFault signature.now claims.now line.now number)) }
{
    let Some(written) = written_as(alloc, line)? else {
        return Ok(Err(KeepFault::Keep { line: number }));
    };
    let Written { claim, name, parts } = written;
    let Some(sum) = numbered(alloc, signature, linear, parts.as_slice())? else {
        return Ok(Err(KeepFault::KeepName { line: number }));
    };
    if claims.has_name(name.bytes()) {
        return Ok(Err(KeepFault::KeepTwice { line: number }));
    }
    if !are_apart(sum.as_slice()) {
        return Ok(Err(KeepFault::KeepTwice { line: number }));
    }
    if is_fall(claim) {
        if !are_not_negative(sum.as_slice()) {
            return Ok(Err(KeepFault::KeepSign { line: number }));
        }
    }
    let line = number;
    Ok(Ok(Weight {
        line,
        claim,
        name,
        sum,
    }))
}

// Whether each rule is to lower the weight.
fn is_fall(claim: Claim) -> bool
    ensures { IsTrue result ↔ (claim ≡ Fall) }
{
    matches!(claim, Claim::Fall)
}
