// Plays a program over the network, for one player or for several in rounds.
ghost use Rattle.std.specs.Prelude.{◌≤◌, IfOk, OnErr};
ghost use Rattle.cep_base.specs.Talk.{ConsoleCause};
ghost use Rattle.cep_words.specs.Words.{AreWithin};
ghost use Rattle.cep_run.specs.Fronts.{FellShort};
ghost use Rattle.cep_run.specs.Said.{IsSomeSaid};
ghost use Rattle.cep_examine.specs.Exchange.{talked, Went};
ghost use Rattle.cep_play.specs.Command.{settings_of};
ghost use Rattle.cep_play.specs.Outcome.{IsRunSaid, IsPlaySaid, IsSomePlaySaid};

use crate::settings::settings_of;
use cep_base::{Console, ConsoleFault, Steps};
use cep_lines::EndWord;
use cep_net::Net;
use cep_players::play_in_rounds;
use cep_rule::Program;
use cep_run::{Tally, play};
use cep_words::Options;
use std::alloc::Global;
use std::sync::ledger::Ledger;

/// Has a dialogue of the program with options, of one player or of several in rounds, and answers
/// the word with which it ended.
pub(crate) fn dialogue<C: Console, L: Ledger>(
    alloc: Global,
    program: &Program,
    options: Options,
    console: &mut C,
    steps: &mut Steps<L>,
) -> Result<EndWord, ConsoleFault>
    requires within { AreWithin options }
    ensures said { IfOk result (λ word. Went (talked C.talk C.left console.old console.new)
        (IsPlaySaid options.players program.now (settings_of program.now options) steps.old
        steps.new word)) }
    ensures begun { OnErr result (FellShort C.talk C.left console.old console.new (λ come. come)
        (IsSomePlaySaid options.players program.now (settings_of program.now options))) }
    ensures counted { steps.old ≤ steps.new }
    ensures cause { ConsoleCause (C.faults console.old) (C.faults console.new) result }
{
    match options.players {
        None => Ok(run(alloc, program, options, console, steps)?.word),
        Some(players) => {
            let settings = settings_of(program, options);
            play_in_rounds::<Net, C, L>(alloc, program, settings, players, console, steps)
        }
    }
}

/// Plays a program with options for one player, and answers what the run came to.
pub(crate) fn run<C: Console, L: Ledger>(
    alloc: Global,
    program: &Program,
    options: Options,
    console: &mut C,
    steps: &mut Steps<L>,
) -> Result<Tally, ConsoleFault>
    requires within { AreWithin options }
    ensures said { IfOk result (λ tally. Went (talked C.talk C.left console.old console.new)
        (IsRunSaid program.now (settings_of program.now options) steps.old steps.new tally)) }
    ensures begun { OnErr result (FellShort C.talk C.left console.old console.new
        (λ come. come) (IsSomeSaid program.now (settings_of program.now options))) }
    ensures counted { steps.old ≤ steps.new }
    ensures cause { ConsoleCause (C.faults console.old) (C.faults console.new) result }
{
    let settings = settings_of(program, options);
    play::<Net, C, L>(alloc, program, settings, console, steps)
}
