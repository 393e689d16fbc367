// What a step comes to, known before the state is changed.
ghost use Rattle.std.specs.Prelude.{◌≡◌, ◌+◌, ◌*◌, ◌≤◌, length, sum_by, IfOk};
ghost use Rattle.cep_base.specs.declared.limits.TheConstants.{MOST_NODES, MOST_PREMISES, MOST_RIGHT};
ghost use Rattle.std.specs.List.{AllByRecursion};
ghost use Rattle.cep_term.specs.Tree.{atom_nodes, IsFit};
ghost use Rattle.cep_term.specs.Multiset.{gathered, sum_of, difference_of, nodes_in_all};
ghost use Rattle.cep_step.specs.Changes.{IsWeighed};
ghost use Rattle.cep_step.specs.Weighing.{IsReady, CanWeigh, IsWeight};

use crate::change::{Change, listed_or};
use crate::fitting::first_too_large;
use crate::laws::steps_are_lawful;
use crate::limit::Limit;
use crate::measured::Measured;
use crate::sides::{made_atoms, used_atoms};
use cep_base::limits::{MOST_COPIES, MOST_STATE_NODES};
use cep_offer::gained_unless_all;
use cep_rule::{AtomList, Parts, Rule, Terms};
use cep_term::laws::bags_are_lawful;
use cep_term::{Bag, nodes};
use std::alloc::{AllocError, Global};

/// What a step comes to: a limit that it would pass, or the change that it is. The limits are this
/// profile's.
#[derive(Drop)]
pub enum Weighed {
    /// The step passes the limit, and this is the number that passes it. Of the first right atom
    /// that is not fit it is the nodes, or, where these are within their limit, the levels; nodes
    /// are counted up to 2^64 - 1. Of a state after the step that does not fit it is the copies,
    /// or, where these are within their limit, the nodes.
    Passes(Limit, u64),
    /// The step is within the limits, and does this.
    Within(Change),
}

// What the state after an edit has too much of, or how many nodes it has.
#[derive(Clone, Copy)]
enum Weight {
    TooFull(u64),
    Fits(u64),
}

// Weighs a step by the rule with these values from a stage and a state that has so many nodes.
pub(crate) fn weigh(
    alloc: Global,
    parts: &Parts,
    rule: &Rule,
    values: &Terms,
    stage: u32,
    state: &Bag,
    nodes: u64,
) -> Result<Weighed, AllocError>
    requires ready { IsReady parts.now rule.now values.now
        (record { stage = stage; state = state.now }) }
    requires nodes { nodes ≡ nodes_in_all state.now }
    ensures { IfOk result (IsWeighed parts.now rule.now values.now
        (record { stage = stage; state = state.now })) }
{
    steps_are_lawful();
    let signature = &parts.signature;
    let too_large = first_too_large(&rule.right, &Measured::new(alloc, values)?);
    if let Some(number) = too_large {
        return Ok(Weighed::Passes(Limit::Atom, number));
    }
    let taken = used_atoms(alloc, signature, rule, values)?;
    let added = made_atoms(alloc, rule, values)?;
    let gains = gained_unless_all(alloc, signature, state, &added)?;
    match weigh_edit(state, nodes, &taken, listed_or(&gains, &added)) {
        Weight::TooFull(number) => Ok(Weighed::Passes(Limit::State, number)),
        Weight::Fits(nodes) => Ok(Weighed::Within(Change {
            taken: Bag::of(alloc, taken)?,
            added,
            gains,
            nodes,
            stage: rule.next.unwrap_or(stage),
        })),
    }
}

// Weighs an edit that takes some atoms from the state and adds those that it gains.
fn weigh_edit(state: &Bag, nodes: u64, taken: &AtomList, gains: &AtomList) -> Weight
    requires can { CanWeigh state.now taken.now gains.now }
    requires nodes { nodes ≡ nodes_in_all state.now }
    ensures { IsWeight
        (sum_of (difference_of state.now (gathered taken.now)) (gathered gains.now)) result }
{
    bags_are_lawful();
    let copies = state.copies() - taken.len() as u64 + gains.len() as u64;
    let nodes = nodes - nodes_in(taken) + nodes_in(gains);
    if copies > MOST_COPIES {
        Weight::TooFull(copies)
    } else if nodes > MOST_STATE_NODES {
        Weight::TooFull(nodes)
    } else {
        Weight::Fits(nodes)
    }
}

// How many nodes these atoms have, which are all fit.
fn nodes_in(atoms: &AtomList) -> u64
    requires fit { AllByRecursion IsFit atoms.now }
    requires few { length atoms.now ≤ MOST_PREMISES + MOST_RIGHT }
    ensures nodes { result ≡ sum_by atom_nodes atoms.now }
    ensures few { result ≤ (MOST_PREMISES + MOST_RIGHT) * MOST_NODES }
{
    let mut sum = 0;
    for i in 0..atoms.len() {
        sum += nodes(atoms.get(i));
    }
    sum
}
