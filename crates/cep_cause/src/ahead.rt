// The rules of the steps that are next in an order.
ghost use Rattle.std.specs.Prelude.{◌<◌, length, IfOk};
ghost use Rattle.cep_cause.specs.Reorderings.{AreNumbersWithin};
ghost use Rattle.cep_cause.specs.Walking.{AreDueAt, AreRulesAt};

use cep_base::List;
use cep_log::Log;
use cep_order::Numbers;
use std::alloc::{AllocError, Global};

/// How many steps are looked up at once: they lie anywhere, and memory is waited for once for all.
pub(crate) const BLOCK: usize = 64;

// The rules of the steps that stand in the same block of the order as this place, of which these are
// those for the places before it.
pub(crate) fn rules_at(
    alloc: Global,
    log: &Log,
    order: &Numbers,
    place: usize,
    rules: Numbers,
) -> Result<Numbers, AllocError>
    requires within { place < length order.now }
    requires numbers { AreNumbersWithin (length log.now.steps) order.now }
    requires due { AreDueAt log.now.steps order.now place rules }
    ensures { IfOk result (AreRulesAt log.now.steps order.now place) }
{
    if place % BLOCK > 0 {
        return Ok(rules);
    }
    let mut rules = List::new(alloc);
    for i in place..place + BLOCK.min(order.len() - place) {
        let step = log.steps.get(*order.get(i) as usize - 1);
        rules.push(step.offer.rule)?;
    }
    Ok(rules)
}
