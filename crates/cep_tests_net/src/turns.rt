// Turns of a program of which each has one offer.
ghost use Rattle.std.specs.Prelude.{◌≡◌, length, IfOk};
ghost use Rattle.cep_machine.specs.Configuration.{IsConfigurationOf};
ghost use Rattle.cep_machine.specs.Asking.{asked_offers};

use cep_base::Steps;
use cep_base::limits::MOST_TURNS;
use cep_machine::{Config, Stepped};
use cep_offer::Matcher;
use cep_rule::Program;
use std::alloc::Global;
use std::sync::ledger::Ledger;
use std::test::Fail;

// How many offers the stage asks about.
fn choices<M: Matcher>(config: &Config<M>) -> usize
    ensures { result ≡ length (asked_offers (M.offers_held config.now.matcher) config.now.stage) }
{
    match config.asked() {
        Some(group) => config.matcher().count(group),
        None => 0,
    }
}

// The configuration after a turn by the one offer.
fn turned<M: Matcher, L: Ledger>(
    alloc: Global,
    program: &Program,
    config: Config<M>,
    steps: &mut Steps<L>,
) -> Result<Config<M>, Fail>
    requires { IsConfigurationOf M.is_of program.now config }
    ensures { IfOk result (IsConfigurationOf M.is_of program.now) }
{
    if choices(&config) != 1 || config.turns() >= MOST_TURNS {
        return Err(Fail::from("other offers"));
    }
    match config.step(alloc, program, 0, steps)? {
        Stepped::Done(next) => Ok(next),
        Stepped::Passes { .. } => Err(Fail::from("a limit")),
    }
}

// The configuration after so many turns.
pub fn after_turns<M: Matcher, L: Ledger>(
    alloc: Global,
    program: &Program,
    start: Config<M>,
    turns: u32,
    steps: &mut Steps<L>,
) -> Result<Config<M>, Fail>
    requires { IsConfigurationOf M.is_of program.now start }
    ensures { IfOk result (IsConfigurationOf M.is_of program.now) }
{
    let mut config = start;
    for _done in 0..turns {
        config = turned(alloc, program, config, steps)?;
    }
    Ok(config)
}
