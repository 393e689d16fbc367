// Whether the derivations of a step prove its backward premises.
ghost use Rattle.std.specs.Prelude.{◌≡◌, ◌+◌, ◌<◌, ◌≤◌, ℕ, List, length, map, slice_get, Some, IfOk, MatchOption};
ghost use Rattle.std.specs.List.{AllByRecursion};
ghost use Rattle.cep_base.specs.declared.limits.TheConstants.{MOST_BACKS, MOST_HEIGHT};
ghost use Rattle.cep_term.specs.Tree.{IsAtomInRange, atom_of};
ghost use Rattle.cep_rule.specs.Instances.{full_instance, full_instances};
ghost use Rattle.cep_rule.specs.Derivations.{ProofTree, proof_of, proof_height};
ghost use Rattle.cep_rule.specs.Steps.{AreProofs};
ghost use Rattle.cep_check.specs.Walking.{IsProofCause, IsOneProofCause, IsProofAt};

use crate::cause::Cause;
use cep_log::Proofs;
use cep_offer::{height, proves};
use cep_rule::{AtomList, Derivation, Program, Terms};
use cep_step::fit_instance;
use cep_term::Atom;
use std::alloc::{AllocError, Global};

// The first derivation that does not prove the instance of its premise, or is too high.
pub(crate) fn first_failure(
    alloc: Global,
    program: &Program,
    most: u32,
    backs: &AtomList,
    values: &Terms,
    proofs: &Proofs,
) -> Result<Option<Cause>, AllocError>
    requires in_range { AllByRecursion (IsAtomInRange (length values.now)) backs.now }
    requires few { length backs.now ≤ MOST_BACKS }
    requires as_many { length proofs.now ≡ length backs.now }
    requires low { AllByRecursion (λ proof. proof_height proof ≤ MOST_HEIGHT) proofs.now }
    ensures { IfOk result (λ cause. MatchOption cause
        (AreProofs program.now most proofs.now (full_instances values.now backs.now))
        (IsProofCause program.now most proofs.now (full_instances values.now backs.now))) }
{
    for i in 0..backs.len() {
        let place = i as u32 + 1;
        let (back, proof) = (backs.get(i), proofs.get(i));
        if let Some(cause) = failure(alloc, program, most, back, values, proof, place)? {
            return Ok(Some(cause));
        }
    }
    Ok(None)
}

// Whether this derivation, at this place, does not prove the instance of the premise, or is too
// high. An instance that is not fit is not built: nothing proves it.
fn failure(
    alloc: Global,
    program: &Program,
    most: u32,
    back: &Atom,
    values: &Terms,
    proof: &Derivation,
    place: u32,
) -> Result<Option<Cause>, AllocError>
    requires in_range { IsAtomInRange (length values.now) (atom_of back.now) }
    requires low { proof_height (proof_of proof.now) ≤ MOST_HEIGHT }
    ensures { IfOk result (λ cause. MatchOption cause
        (IsProofAt program.now most (proof_of proof.now)
        (full_instance values.now (atom_of back.now)))
        (IsOneProofCause program.now most (proof_of proof.now)
        (full_instance values.now (atom_of back.now)) place)) }
{
    let atom = match fit_instance(alloc, back, values)? {
        Some(atom) => atom,
        None => return Ok(Some(Cause::NotProved { premise: place })),
    };
    if !proves(program, proof, &atom) {
        return Ok(Some(Cause::NotProved { premise: place }));
    }
    let high = height(proof);
    if high > most as u64 {
        return Ok(Some(Cause::TooHigh {
            premise: place,
            height: high,
        }));
    }
    Ok(None)
}
