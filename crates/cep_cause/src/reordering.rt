// Writes a log again, with its steps in another order.
ghost use Rattle.std.specs.Prelude.{ℕ, List, IfOk};
ghost use Rattle.cep_step.specs.Spots.{IsSpotOf};
ghost use Rattle.cep_log.specs.Legal.{IsLegal};
ghost use Rattle.cep_cause.specs.Touches.{Touch, AreTouchesOf};
ghost use Rattle.cep_cause.specs.Reorderings.{IsOrder, step_places};
ghost use Rattle.cep_cause.specs.Reordered.{ComesTo};
ghost use Rattle.cep_cause.specs.Walking.{IsToldIn};

use crate::ending::{is_long, put_last};
use crate::laws::logs_are_renewed_step_by_step;
use crate::reordered::Reordered;
use crate::walking::walk;
use cep_base::Text;
use cep_lines::put_start;
use cep_log::Log;
use cep_order::Numbers;
use cep_rule::Program;
use cep_step::Spot;
use std::alloc::{AllocError, Global};

/// The text in version 2 of a legal log whose steps are done in an order that respects what they do
/// to tokens: each does the same as in the log, and the start, the last state and the end word are
/// those of the log. Numbers of steps are counted from 1. `Unfit` comes exactly when the state after
/// some step does not fit, `TooLong` exactly when all states fit and the text is too long
/// (`orders_come_to_one_answer`). Which orders respect the steps, and the limits, are this profile's.
/// Only out of memory is refused.
pub fn again(
    alloc: Global,
    program: &Program,
    log: &Log,
    order: &Numbers,
) -> Result<Reordered, AllocError>
    requires legal { IsLegal program.now log.now }
    requires order { (touches : List Touch) × AreTouchesOf program.now log.now touches
        × IsOrder touches order.now }
    ensures { IfOk result (ComesTo program.now (step_places order.now) log.now) }
{
    let mut text = Text::new(alloc);
    put_start(program, log.height, &mut text)?;
    match walk(alloc, program, log, order, &mut text)? {
        Ok(last) => finish(program, log, &last, text),
        Err(at) => Ok(Reordered::Unfit { at }),
    }
}

// What the log comes to where all steps are done: the text with the end, if it is not too long.
fn finish(
    program: &Program,
    log: &Log,
    last: &Spot,
    mut text: Text,
) -> Result<Reordered, AllocError>
    requires last { IsSpotOf program.now last.now }
    ensures { IfOk result (λ reordered. (places : List ℕ)
        → IsToldIn program.now log.now places text last.now
        → ComesTo program.now places log.now reordered) }
{
    logs_are_renewed_step_by_step();
    program.parts();
    put_last(program, &log.end, last.state(), &mut text)?;
    if is_long(&text) {
        return Ok(Reordered::TooLong);
    }
    Ok(Reordered::Done(text))
}
