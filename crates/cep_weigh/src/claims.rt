// The claims that were read so far.
ghost use Rattle.std.specs.Prelude.{◌≡◌, ◌↔◌, [], ◌∷◌, ◌++◌, IsTrue, IfOk};
ghost use Rattle.cep_weigh.specs.Claims.{IsNamedBefore};

use cep_base::FirstNames;
use cep_claim::{Weight, Weights};
use std::alloc::{AllocError, Global};
use std::marker::Model;

// Claims, whose names can be looked up.
#[derive(Drop)]
pub(crate) struct Claims {
    names: FirstNames<u32>,
    weights: Weights,
}

impl Model for Claims {
    ghost use Rattle.std.specs.Prelude.{List};
    ghost use Rattle.cep_claim.specs.declared.weight.Weight.{Weight};
    ghost use Rattle.cep_weigh.specs.Tables.{NamesClaims};

    ghost Value = { List Weight };

    ghost view = { λ claims. claims.weights };

    ghost invariant = { λ claims. NamesClaims claims.weights claims.names };
}

impl Claims {
    // No claims. It takes no memory.
    pub(crate) fn new(alloc: Global) -> Claims
        ensures { result ≡ [] }
    {
        Claims {
            names: FirstNames::none(alloc),
            weights: Weights::new(alloc),
        }
    }

    // Whether some claim has the name.
    pub(crate) fn has_name(&self, name: &[u8]) -> bool
        ensures { IsTrue result ↔ IsNamedBefore self.now name.now }
    {
        self.names.has_name(name)
    }

    // These claims and one more at the end.
    pub(crate) fn and(self, weight: Weight) -> Result<Claims, AllocError>
        ensures { IfOk result (λ claims. claims ≡ self ++ weight ∷ []) }
    {
        let Claims {
            mut names,
            mut weights,
        } = self;
        let _ = names.add(weight.name.bytes(), weight.line)?;
        weights.push(weight)?;
        Ok(Claims { names, weights })
    }

    // All of them.
    pub(crate) fn weights(self) -> Weights
        ensures { result ≡ self }
    {
        self.weights
    }
}
