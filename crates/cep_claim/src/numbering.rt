// The linear predicates of a program by their names, and the parts of a line by their numbers.
ghost use Rattle.std.specs.Prelude.{◌≡◌, ◌≤◌, ◌↔◌, length, IsTrue, slice_get, Some, ◌+◌, OnOk, IfOk, IfSome, IfNone};
ghost use Rattle.cep_rule.specs.declared.signature.Signature.{Signature};
ghost use Rattle.cep_base.specs.declared.kind.PredKind.TheVariants.{Linear};
ghost use Rattle.cep_base.specs.declared.limits.TheConstants.{MOST_PREDS};
ghost use Rattle.cep_claim.specs.Factors.{HaveOwnPredicates, AreNotNegative};
ghost use Rattle.cep_claim.specs.Written.{AreResolved, SomeIsUnknown};
ghost use Rattle.cep_claim.specs.Tables.{NamesLinear, NamesLinearBelow};

use crate::weight::{Part, WeightParts};
use crate::written::NamedPart;
use cep_base::{FirstNames, PredKind};
use cep_rule::{PredDecl, Signature};
use std::alloc::{AllocError, Global};

/// The linear predicates by their names. Only out of memory is refused.
pub fn linear_names(alloc: Global, signature: &Signature) -> Result<FirstNames<u32>, AllocError>
    requires { length signature.now.preds ≤ MOST_PREDS }
    ensures { IfOk result (NamesLinear signature.now) }
{
    let mut table = FirstNames::none(alloc);
    for i in 0..signature.preds.len() {
        add_linear(&mut table, i as u32, signature.preds.get(i))?;
    }
    Ok(table)
}

// Adds the predicate with this number if it is linear.
fn add_linear(table: &mut FirstNames<u32>, number: u32, pred: &PredDecl) -> Result<(), AllocError>
    ensures { OnOk result ((signature : Signature)
        → slice_get signature.preds number ≡ Some pred.now
        → NamesLinearBelow signature number table.old
        → NamesLinearBelow signature (number + 1) table.new) }
{
    if is_linear(pred.kind) {
        let _ = table.add(pred.name.bytes(), number)?;
    }
    Ok(())
}

// Whether the predicates of the kind are linear.
fn is_linear(kind: PredKind) -> bool
    ensures { IsTrue result ↔ (kind ≡ Linear) }
{
    matches!(kind, PredKind::Linear)
}

/// The parts by the numbers of their predicates, if all of these are linear. Only out of memory is
/// refused.
pub fn numbered(
    alloc: Global,
    signature: &Signature,
    linear: &FirstNames<u32>,
    parts: &[NamedPart],
) -> Result<Option<WeightParts>, AllocError>
    requires { NamesLinear signature.now linear.now }
    ensures some { IfOk result (λ read. IfSome read (AreResolved signature.now parts.now)) }
    ensures none { IfOk result (λ read. IfNone read (SomeIsUnknown signature.now parts.now)) }
{
    let _ = signature;
    let mut sum = WeightParts::new(alloc);
    for part in parts {
        match linear.under(part.name.bytes()) {
            Some(pred) => {
                let factor = part.factor;
                sum.push(Part { pred, factor })?;
            }
            None => return Ok(None),
        }
    }
    Ok(Some(sum))
}

/// Whether no two parts are of one predicate. It takes no memory.
pub fn are_apart(parts: &[Part]) -> bool
    ensures { IsTrue result ↔ HaveOwnPredicates parts.now }
{
    match parts {
        [] => true,
        [first, later @ ..] => {
            let pred = first.pred;
            later.iter().all(|part| part.pred != pred) && are_apart(later)
        }
    }
}

/// Whether no factor is negative. It takes no memory.
pub fn are_not_negative(parts: &[Part]) -> bool
    ensures { IsTrue result ↔ AreNotNegative parts.now }
{
    parts.iter().all(|part| part.factor >= 0)
}
