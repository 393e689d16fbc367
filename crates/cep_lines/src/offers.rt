// Writes the lines of the offers of a group.
ghost use Rattle.std.specs.Prelude.{◌≡◌, ◌<◌, ◌≤◌, ◌++◌, length, All, OnOk, OnErr};
ghost use Rattle.cep_base.specs.declared.limits.TheConstants.{MOST_OFFERS};
ghost use Rattle.cep_rule.specs.Matching.{offers_of};
ghost use Rattle.cep_rule.specs.Shapes.{IsOfferOf};
ghost use Rattle.cep_text.specs.Writing.{IsBegun};
ghost use Rattle.cep_lines.specs.Lines.{offer_line, offer_lines};

use cep_base::Text;
use cep_offer::Matcher;
use cep_rule::{Offer, Program};
use cep_text::put_offer;
use std::alloc::AllocError;

/// The line of an offer, with its place among the offers of its turn, counted from 1.
#[tactic(auto, using(std::proofs::Common::append_assoc), unfolding(crate::specs::Lines::offer_line))]
pub fn put_offer_line(
    program: &Program,
    place: u32,
    offer: &Offer,
    out: &mut Text,
) -> Result<(), AllocError>
    requires { IsOfferOf program.now offer.now }
    ensures ok { OnOk result (out.new ≡ out.old ++ offer_line program.now place offer.now) }
    ensures err { OnErr result (IsBegun out.old (offer_line program.now place offer.now) out.new) }
{
    out.append(b"? ")?;
    out.number(u64::from(place))?;
    out.append(b" ")?;
    put_offer(program, offer, out)?;
    out.append(b"\n")
}

/// The lines of a group's offers, numbered from 1 in their order.
pub fn put_offers<M: Matcher>(
    program: &Program,
    matcher: &M,
    group: u32,
    out: &mut Text,
) -> Result<(), AllocError>
    requires listed { group < length (M.offers_held matcher.now) }
    requires offers { All (IsOfferOf program.now) (offers_of (M.offers_held matcher.now) group) }
    requires few { length (offers_of (M.offers_held matcher.now) group) ≤ MOST_OFFERS }
    ensures ok { OnOk result (out.new
        ≡ out.old ++ offer_lines program.now 1 (offers_of (M.offers_held matcher.now) group)) }
    ensures err { OnErr result (IsBegun out.old
        (offer_lines program.now 1 (offers_of (M.offers_held matcher.now) group)) out.new) }
{
    for i in 0..matcher.count(group) {
        put_offer_line(program, i as u32 + 1, matcher.offer(group, i), out)?;
    }
    Ok(())
}
