//! A run: turn by turn the offers are written, one of them is chosen, and the step is done.
ghost use Rattle.std.specs.Prelude.{◌≡◌, ◌≤◌, IfOk, OnOk, OnErr};
ghost use Rattle.cep_base.specs.declared.limits.TheConstants.{MOST_TURNS};
ghost use Rattle.cep_base.specs.Talk.{outs, Did, ConsoleCause};
ghost use Rattle.cep_rule.specs.Limits.{IsHeight};
ghost use Rattle.cep_rule.specs.State.{IsState};
ghost use Rattle.cep_rule.specs.Matching.{RoseBy};
ghost use Rattle.cep_lines.specs.Lines.{end_lines, header};
ghost use Rattle.cep_run.specs.Costs.{AreDeedCosts, IsRunCost};
ghost use Rattle.cep_run.specs.Run.{whole_supply, deeds_of};
ghost use Rattle.cep_run.specs.Fronts.{FellShort, IsRunOf};
ghost use Rattle.cep_run.specs.Begun.{PutsFront};
ghost use Rattle.cep_run.specs.Turn.{position_of, IsPlayed, IsWholeRun};
ghost use Rattle.cep_run.specs.Said.{Says, IsTally, IsSomeSaid};

use crate::deciding::Spent;
use crate::laws::{
    deeds_are_counted, dialogues_are_there, dialogues_have_logs, one_dialogue, turns_are_deeds,
};
use crate::settings::Settings;
use crate::tally::Tally;
use crate::turn::{Turned, turn};
use cep_base::{Console, ConsoleFault, Steps, Text};
use cep_lines::{EndWord, put_end, put_start};
use cep_machine::Config;
use cep_offer::Matcher;
use cep_rule::Program;
use cep_term::Bag;
use std::alloc::Global;
use std::sync::ledger::Ledger;

/// Where a run ended, why, and how many offers were listed in the turns that were done.
#[derive(Drop)]
struct Finished<M: Matcher> {
    config: Config<M>,
    word: EndWord,
    offers: u64,
}

/// Does turn after turn, until the run ends.
fn all_turns<C: Console, M: Matcher, L: Ledger>(
    alloc: Global,
    program: &Program,
    settings: Settings,
    start: Config<M>,
    console: &mut C,
    steps: &mut Steps<L>,
) -> Result<Finished<M>, ConsoleFault>
    requires played { IsPlayed M.is_of M.height_held program.now settings start }
    requires begins { start.turns ≡ 0 }
    requires limit { settings.limit ≤ MOST_TURNS }
    ensures said { IfOk result (λ end. Did C.talk C.left console.old console.new
        (IsWholeRun program.now settings
        (λ deeds. RoseBy (AreDeedCosts M.may_edit program.now settings.height deeds) steps.old
        steps.new) end.word (position_of start) (position_of end.config) end.offers)) }
    ensures begun { OnErr result (FellShort C.talk C.left console.old console.new whole_supply
        (IsRunOf program.now settings (position_of start))) }
    ensures played { IfOk result (λ end.
        IsPlayed M.is_of M.height_held program.now settings end.config) }
    ensures counted { steps.old ≤ steps.new }
    ensures cause { ConsoleCause (C.faults console.old) (C.faults console.new) result }
{
    let mut config = start;
    let mut spent = Spent::nothing(settings.seed);
    let mut offers = 0;
    while let Some(group) = config.asked() {
        if config.turns() >= settings.limit {
            return Ok(Finished {
                config,
                word: EndWord::Turns,
                offers,
            });
        }
        let listed = config.matcher().count(group);
        config = match turn(
            alloc, program, settings, config, group, console, &mut spent, steps,
        )? {
            Turned::Done(next) => next,
            Turned::Over(end) => {
                return Ok(Finished {
                    config: end.config,
                    word: end.word,
                    offers,
                });
            }
        };
        offers += listed as u64;
    }
    Ok(Finished {
        config,
        word: EndWord::Quiet,
        offers,
    })
}

/// Writes the header of a transcript. Where nobody reads it, nothing is made.
pub fn begin<C: Console>(
    alloc: Global,
    program: &Program,
    height: u32,
    console: &mut C,
) -> Result<(), ConsoleFault>
    ensures told { OnOk result (Did C.talk C.left console.old console.new (λ come events rest.
        (events ≡ outs (header program.now height)) × (rest ≡ come))) }
    ensures begun { OnErr result (Did C.talk C.left console.old console.new
        (PutsFront (header program.now height))) }
    ensures cause { ConsoleCause (C.faults console.old) (C.faults console.new) result }
{
    if !console.is_read() {
        return Ok(());
    }
    let mut header = Text::new(alloc);
    put_start(program, height, &mut header)?;
    console.put(header.bytes())
}

/// Writes why the run ended, and the last state. Where nobody reads them, nothing is made.
pub fn finish<C: Console>(
    alloc: Global,
    program: &Program,
    word: EndWord,
    state: &Bag,
    console: &mut C,
) -> Result<(), ConsoleFault>
    requires { IsState program.now.signature state.now }
    ensures told { OnOk result (Did C.talk C.left console.old console.new (λ come events rest.
        (events ≡ outs (end_lines program.now.signature word state.now)) × (rest ≡ come))) }
    ensures begun { OnErr result (Did C.talk C.left console.old console.new
        (PutsFront (end_lines program.now.signature word state.now))) }
    ensures cause { ConsoleCause (C.faults console.old) (C.faults console.new) result }
{
    if !console.is_read() {
        return Ok(());
    }
    let mut lines = Text::new(alloc);
    put_end(program, word, state, &mut lines)?;
    console.put(lines.bytes())
}

/// Plays a program with these settings and the person at a console, from its start until the run
/// ends. The height is 1 to 512, and the turns are at most 1,000,000. Answers what the run came to.
/// Only a fault of the console and out of memory are refused, and then what was said and heard
/// begins some dialogue, and what was heard is gone from what is to be typed. The counter rises by no
/// more than what the matcher may tick for the start and for the deeds of the very turns that are said,
/// and one for each backward premise of what is done in them.
pub fn play<M: Matcher, C: Console, L: Ledger>(
    alloc: Global,
    program: &Program,
    settings: Settings,
    console: &mut C,
    steps: &mut Steps<L>,
) -> Result<Tally, ConsoleFault>
    requires height { IsHeight settings.height }
    requires limit { settings.limit ≤ MOST_TURNS }
    ensures said { IfOk result (λ tally.
        Says C.talk C.left console.old console.new program.now settings
        (λ turns ending.
        IsTally turns ending tally × RoseBy
        (IsRunCost M.may_begin M.may_edit program.now settings.height (deeds_of turns))
        steps.old steps.new)) }
    ensures begun { OnErr result (FellShort C.talk C.left console.old console.new (λ come. come)
        (IsSomeSaid program.now settings)) }
    ensures counted { steps.old ≤ steps.new }
    ensures cause { ConsoleCause (C.faults console.old) (C.faults console.new) result }
{
    one_dialogue();
    turns_are_deeds();
    deeds_are_counted();
    dialogues_have_logs();
    dialogues_are_there();
    program.parts();
    let config = Config::<M>::begin(alloc, program, settings.height, steps)?;
    begin(alloc, program, settings.height, console)?;
    let end = all_turns(alloc, program, settings, config, console, steps)?;
    finish(alloc, program, end.word, end.config.state(), console)?;
    Ok(Tally {
        word: end.word,
        turns: end.config.turns(),
        offers: end.offers,
        copies: end.config.state().copies(),
    })
}
