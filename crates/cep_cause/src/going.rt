// One step more.
ghost use Rattle.std.specs.Prelude.{◌≡◌, IfOk, MatchOption};
ghost use Rattle.cep_step.specs.Spots.{IsSpotOf};
ghost use Rattle.cep_cause.specs.Walking.{CanGo, GoesTo, GoesOut};

use cep_log::LogStep;
use cep_rule::Program;
use cep_step::{Spot, Weighed};
use std::alloc::{AllocError, Global};

// Where the step leads by its rule, or none if the state there does not fit.
pub(crate) fn go_on(
    alloc: Global,
    program: &Program,
    rule: u32,
    step: &LogStep,
    spot: Spot,
) -> Result<Option<Spot>, AllocError>
    requires rule { rule ≡ step.now.offer.rule }
    requires can { CanGo program.now step.now spot.state }
    requires spot { IsSpotOf program.now spot }
    ensures { IfOk result (λ next. MatchOption next
        (GoesOut program.now step.now spot.state)
        (GoesTo program.now step.now spot)) }
{
    let rule = program.parts().rules.get(rule as usize);
    match spot.weigh(alloc, program, rule, &step.offer.values)? {
        Weighed::Passes(_, _) => Ok(None),
        Weighed::Within(change) => Ok(Some(spot.go(&change)?)),
    }
}
