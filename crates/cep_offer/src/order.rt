ghost use Rattle.std.specs.Prelude.{◌≡◌, map};
ghost use Rattle.std.specs.Cmp.Lexicographic.{slice_cmp};
ghost use Rattle.cep_term.specs.Tree.{tree_of};
ghost use Rattle.cep_term.specs.Order.{tree_cmp};
ghost use Rattle.cep_rule.specs.Offers.{offer_cmp};

use cep_rule::Offer;
use cep_term::{Term, order_term};
use std::cmp::Ordering;

/// Compares two offers by their rule's number, and then by the values from the first variable to the
/// last. The order is this profile's. It takes no memory.
pub fn order_offer(one: &Offer, other: &Offer) -> Ordering
    ensures { result ≡ offer_cmp one.now other.now }
{
    match one.rule.cmp(&other.rule) {
        Ordering::Equal => order_terms(one.values.as_slice(), other.values.as_slice()),
        unequal => unequal,
    }
}

// Compares two lists of terms from left to right. Where one ends first, it is less.
fn order_terms(terms: &[Term], others: &[Term]) -> Ordering
    ensures { result ≡ slice_cmp tree_cmp (map tree_of terms.now) (map tree_of others.now) }
{
    match terms {
        [] => {
            if others.is_empty() {
                Ordering::Equal
            } else {
                Ordering::Less
            }
        }
        [t, terms @ ..] => match others {
            [] => Ordering::Greater,
            [u, others @ ..] => match order_term(t, u) {
                Ordering::Equal => order_terms(terms, others),
                unequal => unequal,
            },
        },
    }
}
