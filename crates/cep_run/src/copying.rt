//! Offers of one's own.
ghost use Rattle.std.specs.Prelude.{◌≡◌, map, IfOk};
ghost use Rattle.cep_term.specs.Tree.{tree_of};

use cep_rule::Offer;
use cep_term::{Term, Terms, copy_term};
use std::alloc::{AllocError, Global};

/// The same offer, which stays when the matcher that listed it goes on.
pub fn copy_offer(alloc: Global, offer: &Offer) -> Result<Offer, AllocError>
    ensures { IfOk result (λ copied. copied ≡ offer.now) }
{
    Ok(Offer {
        rule: offer.rule,
        values: copy_values(alloc, offer.values.as_slice())?,
    })
}

// The same values.
fn copy_values(alloc: Global, values: &[Term]) -> Result<Terms, AllocError>
    ensures { IfOk result (λ copied. copied ≡ map tree_of values.now) }
{
    let mut copied = Terms::new(alloc);
    for value in values {
        copied.push(copy_term(alloc, value)?)?;
    }
    Ok(copied)
}
