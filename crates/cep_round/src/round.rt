ghost use Rattle.std.specs.Prelude.{◌≡◌, ◌+◌, ◌<◌, ◌≤◌, ◌^◌, List, IsPermutation, length, IfOk, OnOk};
ghost use Rattle.std.specs.List.{AllByRecursion};
ghost use Rattle.std.specs.FinMap as finite;
ghost use Rattle.cep_base.specs.declared.limits.TheConstants.{MOST_COPIES};
ghost use Rattle.cep_term.specs.Tree.{IsGroundAtom};
ghost use Rattle.cep_term.specs.Multiset.{gathered, once, difference_of, copies_in, IsBag, IsOnce};
ghost use Rattle.cep_rule.specs.declared.offer.Offer.{Offer as Chosen};
ghost use Rattle.cep_rule.specs.Typing.{is_fact};
ghost use Rattle.cep_rule.specs.State.{joined};
ghost use Rattle.cep_round.specs.Rounds.{AreChosen, AreAdmitted, admitted, used_with, Together};
ghost use Rattle.cep_round.specs.Orders.{LeadInOrder};
ghost use Rattle.cep_round.specs.Sides.{IsOfProgram};

use crate::laws::{
    flags_grow, one_state_after_a_round, rounds_can_be_done_in_every_order, steps_are_lawful,
    what_is_admitted_is_there,
};
use crate::sides::{push_given, push_needed};
use cep_base::List;
use cep_offer::gained;
use cep_rule::{AtomList, Offer, Program, Signature};
use cep_term::Bag;
use cep_term::laws::bags_are_lawful;
use std::alloc::{AllocError, Global};

/// Offers that players have chosen, in order of the players.
pub type Offers = List<Offer>;

/// For each of several chosen offers, in their order, whether it is admitted.
pub type Flags = List<bool>;

/// Which of the chosen offers are admitted: those for which the state has what they need beside
/// what all those admitted before them need, a fact being needed once by all. The others are
/// blocked. That players choose at once, and this rule, are this profile's. Only out of memory is
/// refused.
pub fn admit(
    alloc: Global,
    program: &Program,
    state: &Bag,
    chosen: &Offers,
) -> Result<Flags, AllocError>
    requires { AreChosen program.now state.now chosen.now }
    ensures { IfOk result (AreAdmitted program.now state.now finite.empty chosen.now) }
{
    steps_are_lawful();
    flags_grow();
    let mut flags = Flags::new(alloc);
    let mut used = Bag::new(alloc);
    for i in 0..chosen.len() {
        // By this call the proof learns that it is a multiset of ground atoms.
        let _ = used.copies();
        let with = used_with(alloc, program, &used, chosen.get(i))?;
        let admitted = state.contains(&with);
        flags.push(admitted)?;
        if admitted {
            used = with;
        }
    }
    Ok(flags)
}

/// The state to which the admitted offers lead together: without all that they need, and with all
/// that they give. They can be done one after another in every order, and lead to this state, if
/// all that they make is fit. Only out of memory is refused.
pub fn together(
    alloc: Global,
    program: &Program,
    state: &Bag,
    chosen: &Offers,
    flags: &Flags,
) -> Result<Bag, AllocError>
    requires chosen { AreChosen program.now state.now chosen.now }
    requires flags { AreAdmitted program.now state.now finite.empty chosen.now flags.now }
    ensures together { IfOk result
        (Together program.now (admitted chosen.now flags.now) state.now) }
    ensures in_every_order { IfOk result (λ last. (order : List Chosen)
        → IsPermutation (admitted chosen.now flags.now) order
        → LeadInOrder program.now order state.now last) }
{
    steps_are_lawful();
    what_is_admitted_is_there();
    rounds_can_be_done_in_every_order();
    one_state_after_a_round();
    let mut needed = AtomList::new(alloc);
    let mut given = AtomList::new(alloc);
    for i in 0..chosen.len() {
        if *flags.get(i) {
            push_needed(alloc, program, chosen.get(i), &mut needed)?;
            push_given(alloc, program, chosen.get(i), &mut given)?;
        }
    }
    exchange(alloc, &program.parts().signature, state, &needed, &given)
}

// What is used once the offer is admitted too.
fn used_with(alloc: Global, program: &Program, used: &Bag, offer: &Offer) -> Result<Bag, AllocError>
    requires offer { IsOfProgram program.now offer.now }
    requires bag { IsBag used.now }
    requires once { IsOnce (is_fact program.now.signature) used.now }
    requires few { copies_in used.now ≤ MOST_COPIES }
    ensures { IfOk result (λ bag. bag ≡ used_with program.now used.now offer.now) }
{
    steps_are_lawful();
    let mut needed = AtomList::new(alloc);
    push_needed(alloc, program, offer, &mut needed)?;
    let mut with = used.copy(alloc)?;
    join(alloc, &program.parts().signature, &mut with, &needed)?;
    Ok(with)
}

// The state without what is needed, each fact once, and with what is given.
fn exchange(
    alloc: Global,
    signature: &Signature,
    state: &Bag,
    needed: &AtomList,
    given: &AtomList,
) -> Result<Bag, AllocError>
    requires needed { AllByRecursion IsGroundAtom needed.now }
    requires given { AllByRecursion IsGroundAtom given.now }
    requires bag { IsBag state.now }
    requires once { IsOnce (is_fact signature.now) state.now }
    requires few_needed { length needed.now < 2 ^ 32 }
    requires few { copies_in state.now + length given.now < 2 ^ 32 }
    ensures { IfOk result (λ bag. bag ≡ joined signature.now
        (difference_of state.now (joined signature.now finite.empty (gathered needed.now)))
        (gathered given.now)) }
{
    bags_are_lawful();
    let mut taken = Bag::new(alloc);
    join(alloc, signature, &mut taken, needed)?;
    let mut new = state.copy(alloc)?;
    new.take_all(&taken);
    join(alloc, signature, &mut new, given)?;
    Ok(new)
}

// Adds the atoms to the bag, and of each fact one at most.
fn join(
    alloc: Global,
    signature: &Signature,
    bag: &mut Bag,
    atoms: &AtomList,
) -> Result<(), AllocError>
    requires ground { AllByRecursion IsGroundAtom atoms.now }
    requires once { IsOnce (is_fact signature.now) bag.old }
    requires few { copies_in bag.old + length atoms.now < 2 ^ 32 }
    ensures { OnOk result (bag.new ≡ joined signature.now bag.old (gathered atoms.now)) }
{
    bags_are_lawful();
    // By this call the proof learns that it is a multiset of ground atoms.
    let _ = bag.copies();
    let gains = gained(alloc, signature, bag, atoms)?;
    bag.add_all(&gains)
}
