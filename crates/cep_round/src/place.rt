ghost use Rattle.std.specs.Prelude.{◌≡◌, ◌↔◌, ◌<◌, length, Contains, IsTrue, MatchOption};
ghost use Rattle.cep_rule.specs.Matching.{offers_of};
ghost use Rattle.cep_round.specs.Rounds.{IsLeastPlace};

use cep_offer::{Matcher, order_offer};
use cep_rule::Offer;
use cep_rule::laws::offers_have_one_order;

/// The least place, counted from 0, of the offer in the matcher's list of the group, or `None` if
/// and only if the list has not got it. It takes no memory.
pub fn place_of<M: Matcher>(matcher: &M, group: u32, offer: &Offer) -> Option<usize>
    requires { group < length (M.offers_held matcher.now) }
    ensures { MatchOption result
        (¬ Contains (offers_of (M.offers_held matcher.now) group) offer.now)
        (IsLeastPlace (offers_of (M.offers_held matcher.now) group) offer.now) }
{
    for place in 0..matcher.count(group) {
        if is_same(matcher.offer(group, place), offer) {
            return Some(place);
        }
    }
    None
}

// Whether two offers are equal.
fn is_same(one: &Offer, other: &Offer) -> bool
    ensures { IsTrue result ↔ (one.now ≡ other.now) }
{
    offers_have_one_order();
    order_offer(one, other).is_eq()
}
