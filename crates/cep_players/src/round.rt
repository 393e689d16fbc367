// A round of all players.
ghost use Rattle.std.specs.Prelude.{◌≡◌, ◌+◌, ◌<◌, ◌≤◌, length, IfOk, OnErr};
ghost use Rattle.cep_base.specs.declared.limits.TheConstants.{MOST_TURNS};
ghost use Rattle.cep_base.specs.Talk.{ConsoleCause};
ghost use Rattle.cep_rule.specs.Matching.{offers_of};
ghost use Rattle.cep_rule.specs.Stages.{own_group};
ghost use Rattle.cep_round.specs.declared.limits.TheConstants.{MOST_PLAYERS};
ghost use Rattle.cep_run.specs.Fronts.{FellShort};
ghost use Rattle.cep_run.specs.Turn.{position_of, supply_with, config_left, HasSpent, IsPlayed};
ghost use Rattle.cep_players.specs.Runs.{IsListedHere};
ghost use Rattle.cep_players.specs.Playing.{IsRunInRounds};
ghost use Rattle.cep_players.specs.Going.{IsWent};

use crate::acting::{act_all, over};
use crate::blocked::tell_blocked;
use crate::choices::{Chosen, choices};
use crate::laws::players_are_lawful;
use cep_base::{Console, ConsoleFault, Steps};
use cep_machine::Config;
use cep_offer::Matcher;
use cep_round::admit;
use cep_rule::Program;
use cep_run::Settings;
use cep_run::deciding::{Spent, tell};
use cep_run::turn::Turned;
use std::alloc::Global;
use std::sync::ledger::Ledger;

// Has all players choose among the offers of the group, and does what is admitted, in order.
pub(crate) fn round<C: Console, M: Matcher, L: Ledger>(
    alloc: Global,
    program: &Program,
    settings: Settings,
    players: u32,
    config: Config<M>,
    group: u32,
    console: &mut C,
    spent: &mut Spent,
    steps: &mut Steps<L>,
) -> Result<Turned<M>, ConsoleFault>
    requires played { IsPlayed M.is_of M.height_held program.now settings config }
    requires listed { group < length (M.offers_held config.matcher) }
    requires own { group ≡ own_group config.stage }
    requires here { IsListedHere program.now settings (position_of config)
        (offers_of (M.offers_held config.matcher) group) }
    requires limit { settings.limit ≤ MOST_TURNS }
    requires spent { HasSpent settings.seed config.turns spent.old }
    requires some { 0 < players }
    requires few { players ≤ MOST_PLAYERS }
    ensures went { IfOk result (IsWent C.talk C.left console.old console.new program.now settings
        players config spent.old spent.new) }
    ensures played { IfOk result (λ turned. IsPlayed M.is_of M.height_held program.now settings
        (config_left turned)) }
    ensures begun { OnErr result (FellShort C.talk C.left console.old console.new
        (λ come. supply_with come spent.old)
        (IsRunInRounds program.now settings players (position_of config))) }
    ensures spent { HasSpent settings.seed (config.turns + 1) spent.new }
    ensures counted { steps.old ≤ steps.new }
    ensures cause { ConsoleCause (C.faults console.old) (C.faults console.new) result }
{
    players_are_lawful();
    program.parts();
    let matcher = config.matcher();
    tell(alloc, program, matcher, group, console)?;
    match choices(alloc, players, matcher, group, console, spent)? {
        Chosen::All(chosen) => {
            let flags = admit(alloc, program, config.state(), &chosen)?;
            tell_blocked(alloc, program, &chosen, &flags, console)?;
            act_all(
                alloc, program, settings, config, group, &chosen, &flags, console, steps,
            )
        }
        Chosen::Over(word) => Ok(over(config, word)),
    }
}
