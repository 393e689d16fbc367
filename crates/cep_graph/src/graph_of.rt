ghost use Rattle.std.specs.Prelude.{IfOk};
ghost use Rattle.cep_log.specs.Legal.{IsLegal};
ghost use Rattle.cep_cause.specs.Graphs.{IsGraph};

use crate::starting::start_tokens;
use crate::touching::touch;
use cep_base::List;
use cep_cause::laws::logs_touch_tokens;
use cep_log::Log;
use cep_order::{StepCause, StepCauses};
use cep_rule::Program;
use std::alloc::{AllocError, Global};

/// The graph of a legal log: an entry for each step, which says whether the step is a barrier, and
/// on which earlier steps it rests by a token. That equal copies of an atom are told apart, and
/// which of them a step picks, is this profile's.
///
/// # Errors
///
/// Out of memory alone.
pub fn graph(alloc: Global, program: &Program, log: &Log) -> Result<StepCauses, AllocError>
    requires { IsLegal program.now log.now }
    ensures { IfOk result (IsGraph program.now log.now) }
{
    logs_touch_tokens();
    let parts = program.parts();
    let mut tokens = start_tokens(alloc, &parts.start)?;
    let mut causes = List::new(alloc);
    for i in 0..log.steps.len() {
        let step = log.steps.get(i);
        let rule = parts.rules.get(step.offer.rule as usize);
        let values = &step.offer.values;
        let after = touch(
            alloc,
            &parts.signature,
            rule,
            values,
            i as u32 + 1,
            &mut tokens,
        )?;
        causes.push(StepCause {
            barrier: rule.next.is_some(),
            after,
        })?;
    }
    Ok(causes)
}
