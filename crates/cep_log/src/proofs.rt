ghost use Rattle.std.specs.Prelude.{◌≡◌, ◌<◌, ◌↔◌, [], ◌∷◌, ◌++◌, length, map, slice_get, Some, OnOk, OnErr, IsTrue};
ghost use Rattle.cep_rule.specs.Derivations.{proof_of};

use cep_rule::Derivation;
use std::alloc::{AllocError, Global};
use std::marker::Model;

/// A list of derivations, as those of the backward premises of a step. Contracts see each as its
/// tree.
#[derive(Drop)]
pub struct Proofs {
    proofs: Vec<Derivation>,
}

impl Model for Proofs {
    ghost use Rattle.std.specs.Prelude.{List, map};
    ghost use Rattle.std.specs.Coded.{coded_list};
    ghost use Rattle.cep_rule.specs.Derivations.{ProofTree, proof_of};
    ghost use Rattle.cep_log.specs.Codes.{proof_code};

    ghost Value = { List ProofTree };

    ghost coded = { coded_list proof_code };

    ghost view = { λ list. map proof_of list.proofs.items };
}

impl Proofs {
    /// The list without derivations. It takes no memory.
    pub fn new(alloc: Global) -> Proofs
        ensures { result ≡ [] }
    {
        Proofs {
            proofs: Vec::new(alloc),
        }
    }

    /// How many derivations there are. It takes no memory.
    pub fn len(&self) -> usize
        ensures { result ≡ length self.now }
    {
        self.proofs.len()
    }

    /// Whether there is no derivation. It takes no memory.
    pub fn is_empty(&self) -> bool
        ensures { IsTrue result ↔ (self.now ≡ []) }
    {
        self.proofs.is_empty()
    }

    /// The derivation at this place, counted from 0. It takes no memory.
    pub fn get(&self, i: usize) -> &Derivation
        requires { i < length self.now }
        ensures { slice_get self.now i ≡ Some (proof_of result.now) }
    {
        &self.proofs[i]
    }

    /// The derivations as they are kept. It takes no memory.
    pub fn as_slice(&self) -> &[Derivation]
        ensures { map proof_of result.now ≡ self.now }
    {
        self.proofs.as_slice()
    }

    /// Adds a derivation at the end. After out of memory the list is as before, and the derivation
    /// is gone.
    pub fn push(&mut self, proof: Derivation) -> Result<(), AllocError>
        ensures ok { OnOk result (self.new ≡ self.old ++ proof_of proof ∷ []) }
        ensures err { OnErr result (self.new ≡ self.old) }
    {
        self.proofs.push(proof)?;
        Ok(())
    }
}
