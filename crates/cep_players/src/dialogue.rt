//! A run in rounds: turn after turn, and round after round, until it ends.
ghost use Rattle.std.specs.Prelude.{◌≡◌, ◌↔◌, ◌+◌, ◌<◌, ◌≤◌, length, slice_get, true, IfOk, IsSomeAnd, IsTrue, OnErr};
ghost use Rattle.cep_base.specs.declared.limits.TheConstants.{MOST_TURNS};
ghost use Rattle.cep_base.specs.Talk.{Did, ConsoleCause};
ghost use Rattle.cep_rule.specs.Limits.{IsHeight};
ghost use Rattle.cep_rule.specs.Stages.{own_group};
ghost use Rattle.cep_round.specs.declared.limits.TheConstants.{MOST_PLAYERS};
ghost use Rattle.cep_run.specs.Run.{whole_supply};
ghost use Rattle.cep_run.specs.Fronts.{FellShort};
ghost use Rattle.cep_run.specs.Turn.{position_of, supply_with, config_left, HasSpent, IsPlayed};
ghost use Rattle.cep_players.specs.Dialogues.{choose_line};
ghost use Rattle.cep_players.specs.Playing.{IsRunInRounds};
ghost use Rattle.cep_players.specs.Going.{IsWent, IsWholeInRounds, IsDialogueWith, IsSomeDialogue};
ghost use Rattle.cep_players.specs.Said.{IsSaidInRounds, IsSomeSaidInRounds};

use crate::acting::over;
use crate::laws::{
    dialogues_in_rounds_are_said, dialogues_in_rounds_are_there, players_are_lawful,
};
use crate::round::round;
use cep_base::{Console, ConsoleFault, Steps};
use cep_lines::EndWord;
use cep_machine::Config;
use cep_offer::Matcher;
use cep_rule::Program;
use cep_run::Settings;
use cep_run::deciding::Spent;
use cep_run::dialogue::{begin, finish};
use cep_run::turn::{Ended, Turned, asked_turn};
use std::alloc::Global;
use std::sync::ledger::Ledger;

/// Plays a program with these settings and so many players at one console, from its start until the
/// run ends, and answers the word with which it ended. The height is 1 to 512, the turns are at most
/// 1,000,000, and the players 1 to 16. Where a stage is interactive and its own rules are asked, all
/// players choose at once. Rounds are this profile's. Only a fault of the console and out of memory
/// are refused, and then what was said and heard begins some dialogue, and what was heard is gone
/// from what is to be typed.
pub fn play_in_rounds<M: Matcher, C: Console, L: Ledger>(
    alloc: Global,
    program: &Program,
    settings: Settings,
    players: u32,
    console: &mut C,
    steps: &mut Steps<L>,
) -> Result<EndWord, ConsoleFault>
    requires height { IsHeight settings.height }
    requires limit { settings.limit ≤ MOST_TURNS }
    requires some { 0 < players }
    requires few { players ≤ MOST_PLAYERS }
    ensures said { IfOk result (λ word. Did C.talk C.left console.old console.new
        (IsSaidInRounds program.now settings players word)) }
    ensures begun { OnErr result (FellShort C.talk C.left console.old console.new (λ come. come)
        (IsSomeSaidInRounds program.now settings players)) }
    ensures counted { steps.old ≤ steps.new }
    ensures cause { ConsoleCause (C.faults console.old) (C.faults console.new) result }
{
    dialogues_in_rounds_are_said();
    program.parts();
    dialogue::<M, C, L>(alloc, program, settings, players, console, steps)
}

// Has a whole dialogue: the header, turns and rounds until the run ends, and why it ended.
fn dialogue<M: Matcher, C: Console, L: Ledger>(
    alloc: Global,
    program: &Program,
    settings: Settings,
    players: u32,
    console: &mut C,
    steps: &mut Steps<L>,
) -> Result<EndWord, ConsoleFault>
    requires height { IsHeight settings.height }
    requires limit { settings.limit ≤ MOST_TURNS }
    requires some { 0 < players }
    requires few { players ≤ MOST_PLAYERS }
    ensures said { IfOk result (λ word. Did C.talk C.left console.old console.new
        (IsDialogueWith program.now settings players word)) }
    ensures begun { OnErr result (FellShort C.talk C.left console.old console.new (λ come. come)
        (IsSomeDialogue program.now settings players)) }
    ensures counted { steps.old ≤ steps.new }
    ensures cause { ConsoleCause (C.faults console.old) (C.faults console.new) result }
{
    dialogues_in_rounds_are_there();
    program.parts();
    let config = Config::<M>::begin(alloc, program, settings.height, steps)?;
    begin(alloc, program, settings.height, console)?;
    let end = all_parts(alloc, program, settings, players, config, console, steps)?;
    finish(alloc, program, end.word, end.config.state(), console)?;
    Ok(end.word)
}

// Does turns and rounds until the run ends.
fn all_parts<C: Console, M: Matcher, L: Ledger>(
    alloc: Global,
    program: &Program,
    settings: Settings,
    players: u32,
    start: Config<M>,
    console: &mut C,
    steps: &mut Steps<L>,
) -> Result<Ended<M>, ConsoleFault>
    requires played { IsPlayed M.is_of M.height_held program.now settings start }
    requires begins { start.turns ≡ 0 }
    requires limit { settings.limit ≤ MOST_TURNS }
    requires some { 0 < players }
    requires few { players ≤ MOST_PLAYERS }
    ensures said { IfOk result (λ end. Did C.talk C.left console.old console.new
        (IsWholeInRounds program.now settings players (position_of start) end.word
        (position_of end.config))) }
    ensures begun { OnErr result (FellShort C.talk C.left console.old console.new whole_supply
        (IsRunInRounds program.now settings players (position_of start))) }
    ensures played { IfOk result (λ end.
        IsPlayed M.is_of M.height_held program.now settings end.config) }
    ensures counted { steps.old ≤ steps.new }
    ensures cause { ConsoleCause (C.faults console.old) (C.faults console.new) result }
{
    let mut config = start;
    let mut spent = Spent::nothing(settings.seed);
    loop {
        config = match part(
            alloc, program, settings, players, config, console, &mut spent, steps,
        )? {
            Turned::Done(next) => next,
            Turned::Over(ended) => return Ok(ended),
        };
    }
}

// Does one turn or one round, unless the run ends before it.
fn part<C: Console, M: Matcher, L: Ledger>(
    alloc: Global,
    program: &Program,
    settings: Settings,
    players: u32,
    config: Config<M>,
    console: &mut C,
    spent: &mut Spent,
    steps: &mut Steps<L>,
) -> Result<Turned<M>, ConsoleFault>
    requires played { IsPlayed M.is_of M.height_held program.now settings config }
    requires limit { settings.limit ≤ MOST_TURNS }
    requires turns { config.turns ≤ settings.limit }
    requires spent { HasSpent settings.seed config.turns spent.old }
    requires some { 0 < players }
    requires few { players ≤ MOST_PLAYERS }
    ensures went { IfOk result (IsWent C.talk C.left console.old console.new program.now settings
        players config spent.old spent.new) }
    ensures played { IfOk result (λ turned. IsPlayed M.is_of M.height_held program.now settings
        (config_left turned)) }
    ensures begun { OnErr result (FellShort C.talk C.left console.old console.new
        (λ come. supply_with come spent.old)
        (IsRunInRounds program.now settings players (position_of config))) }
    ensures spent { HasSpent settings.seed (config.turns + 1) spent.new }
    ensures counted { steps.old ≤ steps.new }
    ensures cause { ConsoleCause (C.faults console.old) (C.faults console.new) result }
{
    let Some(group) = config.asked() else {
        return Ok(over(config, EndWord::Quiet));
    };
    let limit = settings.limit;
    if config.turns() >= limit {
        return Ok(over(config, EndWord::Turns));
    }
    if !config.matcher().len_ok(group) {
        return Ok(over(config, EndWord::Offers));
    }
    if is_for_all(program, &config, group) {
        round(
            alloc, program, settings, players, config, group, console, spent, steps,
        )
    } else {
        players_are_lawful();
        program.parts();
        asked_turn(
            alloc,
            program,
            settings,
            config,
            group,
            first_line(),
            console,
            spent,
            steps,
        )
    }
}

// The line that asks the first player.
#[tactic(auto, using(std::proofs::lemmas::Fmt::decimal_digit), unfolding(crate::specs::Dialogues::choose_line))]
fn first_line() -> &'static [u8]
    ensures { result.now ≡ choose_line 1 }
{
    b"? choose 1\n"
}

// All players choose at once: the stage is interactive, and the group is that of its own rules.
fn is_for_all<M: Matcher>(program: &Program, config: &Config<M>, group: u32) -> bool
    requires { config.now.stage < length program.now.stages }
    ensures { IsTrue result ↔ (IsSomeAnd (slice_get program.now.stages config.now.stage)
        (λ stage. stage.interactive ≡ true) × (group ≡ own_group config.now.stage)) }
{
    let stage = config.stage();
    let parts = program.parts();
    parts.stages.get(stage as usize).interactive && group == 2 * stage
}
