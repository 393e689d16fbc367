// Where the copies of an atom are other than wanted.
ghost use Rattle.std.specs.Prelude.{◌≡◌, ◌<◌, ◌⊎◌, ℕ, length, slice_get, MatchOption, IfSome};
ghost use Rattle.std.specs.FinMap as finite;
ghost use Rattle.cep_term.specs.Tree.{atom_of};
ghost use Rattle.cep_term.specs.Multiset.{IsContained};
ghost use Rattle.cep_rule.specs.declared.signature.Signature.{Signature};
ghost use Rattle.cep_log.specs.Legal.{IsListing};
ghost use Rattle.cep_check.specs.Causes.{IsFirstDifference, IsFirstLack};
ghost use Rattle.cep_check.specs.Places.{AgreeBelow, Agree};

use cep_log::Haves;
use cep_term::laws::bags_are_lawful;
use cep_term::{Atom, Bag, order};
use std::cmp::Ordering;

// An atom of which a listing says another number of copies than there are.
#[derive(Clone, Copy)]
pub(crate) struct Difference<'a> {
    pub(crate) atom: &'a Atom,
    pub(crate) said: u32,
    pub(crate) is: u32,
}

// An atom of which there are fewer copies than needed.
#[derive(Clone, Copy)]
pub(crate) struct Lack<'a> {
    pub(crate) atom: &'a Atom,
    pub(crate) have: u32,
    pub(crate) need: u32,
}

// The first atom of which the listing says another number of copies than the state has. Without one
// the listing is the state.
pub(crate) fn first_difference<'a>(listing: &'a Haves, state: &'a Bag) -> Option<Difference<'a>>
    requires listing { (signature : Signature) × IsListing signature listing.now }
    ensures { MatchOption result (listing.now ≡ finite.entries state.now)
        (λ difference. IsFirstDifference listing.now state.now
        (atom_of difference.atom.now) difference.said difference.is) }
{
    bags_are_lawful();
    for place in 0..listing.len().max(state.len()) {
        let difference = difference_at(listing, state, place);
        if difference.is_some() {
            return difference;
        }
    }
    None
}

// The difference at this place, where all places before it agree.
fn difference_at<'a>(listing: &'a Haves, state: &'a Bag, place: usize) -> Option<Difference<'a>>
    requires listing { (signature : Signature) × IsListing signature listing.now }
    requires below { AgreeBelow place listing.now state.now }
    requires within { (place < length listing.now) ⊎ (place < finite.len state.now) }
    ensures { MatchOption result (Agree place listing.now state.now)
        (λ difference. IsFirstDifference listing.now state.now
        (atom_of difference.atom.now) difference.said difference.is) }
{
    bags_are_lawful();
    let entries = state.len();
    if place >= listing.len() {
        let (atom, is) = state.entry(place);
        return Some(Difference { atom, said: 0, is });
    }
    let have = listing.get(place);
    let (atom, said) = (&have.atom, have.count);
    if place >= entries {
        return Some(Difference { atom, said, is: 0 });
    }
    let (other, is) = state.entry(place);
    match order(atom, other) {
        Ordering::Less => Some(Difference { atom, said, is: 0 }),
        Ordering::Greater => Some(Difference {
            atom: other,
            said: 0,
            is,
        }),
        Ordering::Equal => {
            if said == is {
                None
            } else {
                Some(Difference { atom, said, is })
            }
        }
    }
}

// The first atom of which more copies are needed than the state has.
pub(crate) fn first_lack<'a>(needed: &'a Bag, state: &Bag) -> Option<Lack<'a>>
    ensures { MatchOption result (IsContained needed.now state.now)
        (λ lack. IsFirstLack needed.now state.now (atom_of lack.atom.now) lack.have lack.need) }
{
    bags_are_lawful();
    for place in 0..needed.len() {
        let (atom, need) = needed.entry(place);
        let have = state.count(atom);
        if have < need {
            return Some(Lack { atom, have, need });
        }
    }
    None
}
