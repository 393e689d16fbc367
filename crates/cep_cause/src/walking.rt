// Does the steps of a log in an order, and writes them in version 2.
ghost use Rattle.std.specs.Prelude.{◌≡◌, ◌++◌, List, IfOk, OnOk, MatchResult};
ghost use Rattle.cep_rule.specs.State.{IsState};
ghost use Rattle.cep_lines.specs.Lines.{header};
ghost use Rattle.cep_log.specs.Legal.{IsLegal};
ghost use Rattle.cep_cause.specs.Renewing.{CanBePut, renewed_lines};
ghost use Rattle.cep_cause.specs.Touches.{Touch, AreTouchesOf};
ghost use Rattle.cep_cause.specs.Reorderings.{IsOrder, step_places};
ghost use Rattle.cep_cause.specs.Reordered.{IsUnfitIn};
ghost use Rattle.cep_cause.specs.Walking.{WritesUnlessLong, IsToldIn};

use crate::ahead::{BLOCK, rules_at};
use crate::ending::is_long;
use crate::going::go_on;
use crate::laws::{causes_are_lawful, logs_are_renewed_step_by_step};
use cep_base::{List, Text};
use cep_lines::put_deed;
use cep_log::{Log, LogStep};
use cep_order::Numbers;
use cep_rule::Program;
use cep_step::Spot;
use cep_term::Bag;
use std::alloc::{AllocError, Global};

// Where all steps lead in the order, with their lines at the end of the text; or the number, counted
// from 1 in the order, of the first step that leads to a state that does not fit. Once the text is
// too long no more is written.
pub(crate) fn walk(
    alloc: Global,
    program: &Program,
    log: &Log,
    order: &Numbers,
    text: &mut Text,
) -> Result<Result<Spot, u32>, AllocError>
    requires legal { IsLegal program.now log.now }
    requires order { (touches : List Touch) × AreTouchesOf program.now log.now touches
        × IsOrder touches order.now }
    requires begins { text.old ≡ header program.now log.now.height }
    ensures { IfOk result (λ walked. MatchResult walked
        (IsToldIn program.now log.now (step_places order.now) text.new)
        (IsUnfitIn program.now log.now (step_places order.now))) }
{
    causes_are_lawful();
    logs_are_renewed_step_by_step();
    program.parts();
    let mut spot = Spot::start(alloc, program)?;
    let mut rules = List::new(alloc);
    for i in 0..order.len() {
        rules = rules_at(alloc, log, order, i, rules)?;
        let number = i as u32 + 1;
        let step = log.steps.get(*order.get(i) as usize - 1);
        let rule = *rules.get(i % BLOCK);
        spot = match go_on(alloc, program, rule, step, spot)? {
            Some(next) => next,
            None => return Ok(Err(number)),
        };
        put_step(program, number, step, spot.state(), text)?;
    }
    Ok(Ok(spot))
}

// Writes the lines of the step of a number, which leads to this state, unless the text is too long.
fn put_step(
    program: &Program,
    number: u32,
    step: &LogStep,
    state: &Bag,
    text: &mut Text,
) -> Result<(), AllocError>
    requires put { CanBePut program.now step.now }
    requires state { IsState program.now.signature state.now }
    ensures { OnOk result (WritesUnlessLong
        (renewed_lines program.now number step.now state.now) text.old text.new) }
{
    if is_long(text) {
        return Ok(());
    }
    let proofs = step.proofs.as_slice();
    put_deed(
        program,
        &step.offer,
        proofs,
        step.stage,
        number,
        state,
        text,
    )
}
