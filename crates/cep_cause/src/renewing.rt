// Renews legal logs: the text in version 2 of a log of either version.
ghost use Rattle.std.specs.Prelude.{◌≤◌, length, IfOk, IfSome, IfNone};
ghost use Rattle.cep_log.specs.Legal.{IsLegal};
ghost use Rattle.cep_cause.specs.Renewed.{IsRenewedText, IsTooLongRenewed};
ghost use Rattle.cep_cause.specs.Reordered.{IsWrittenOrder};

use crate::laws::{causes_are_lawful, logs_touch_tokens};
use crate::reordered::Reordered;
use crate::reordering::again;
use cep_base::{List, Text};
use cep_log::Log;
use cep_order::Numbers;
use cep_rule::Program;
use std::alloc::{AllocError, Global};

/// The text in version 2 of a legal log: what is written from its height, its start, its steps and
/// its end, with the states after its steps as the listings after them. It is a transcript of a
/// legal log in which the same was done. None comes exactly when that text has more than 67,108,864
/// bytes, which is the limit of a transcript. Only out of memory is refused.
pub fn renew(alloc: Global, program: &Program, log: &Log) -> Result<Option<Text>, AllocError>
    requires { IsLegal program.now log.now }
    ensures renewed { IfOk result (λ answer. IfSome answer (IsRenewedText program.now log.now)) }
    ensures too_long { IfOk result
        (λ answer. IfNone answer (IsTooLongRenewed program.now log.now)) }
{
    causes_are_lawful();
    logs_touch_tokens();
    program.parts();
    let order = written_order(alloc, log)?;
    match again(alloc, program, log, &order)? {
        Reordered::Done(text) => Ok(Some(text)),
        Reordered::TooLong => Ok(None),
        Reordered::Unfit { .. } => unreachable!(),
    }
}

// The steps of a log in the order in which they are written.
fn written_order(alloc: Global, log: &Log) -> Result<Numbers, AllocError>
    requires few { length log.now.steps ≤ 67108864 }
    ensures { IfOk result (IsWrittenOrder log.now.steps) }
{
    let mut order = List::new(alloc);
    for i in 0..log.steps.len() {
        order.push(i as u32 + 1)?;
    }
    Ok(order)
}
