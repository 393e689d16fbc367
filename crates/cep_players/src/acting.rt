// Offers of a round are done, and their lines are written.
ghost use Rattle.std.specs.Prelude.{◌≡◌, ◌<◌, ◌≤◌, Contains, Some, length, slice_get, IfOk, OnErr};
ghost use Rattle.std.specs.List.{AllByRecursion};
ghost use Rattle.std.specs.FinMap as finite;
ghost use Rattle.cep_base.specs.Talk.{Did, ConsoleCause};
ghost use Rattle.cep_base.specs.declared.limits.TheConstants.{MOST_TURNS};
ghost use Rattle.cep_rule.specs.Offers.{IsOffer};
ghost use Rattle.cep_rule.specs.Stages.{own_group};
ghost use Rattle.cep_rule.specs.Matching.{offers_of};
ghost use Rattle.cep_round.specs.Rounds.{AreAdmitted, admitted};
ghost use Rattle.cep_run.specs.declared.turn.Turned.TheVariants.{Over};
ghost use Rattle.cep_run.specs.Turn.{position_of, config_left, IsPlayed};
ghost use Rattle.cep_players.specs.Going.{IsOfferActed, IsOfferMoved, BeginsOffer, AreActed, AreTurnsAdded, BeginsActs};

use crate::laws::players_are_lawful;
use cep_base::{Console, ConsoleFault, Steps};
use cep_lines::EndWord;
use cep_machine::Config;
use cep_offer::Matcher;
use cep_round::{Flags, Offers, place_of};
use cep_rule::{Offer, Program};
use cep_run::Settings;
use cep_run::turn::{Ended, Turned, act};
use std::alloc::Global;
use std::sync::ledger::Ledger;

// The run ends in the configuration, for this reason.
pub(crate) fn over<M: Matcher>(config: Config<M>, word: EndWord) -> Turned<M>
    ensures { result ≡ Over (record { config = config; word = word }) }
{
    Turned::Over(Ended { config, word })
}

// Does the admitted offers, one after another, each where it stands in the offers by then. Each
// applies to the state that it finds.
pub(crate) fn act_all<C: Console, M: Matcher, L: Ledger>(
    alloc: Global,
    program: &Program,
    settings: Settings,
    start: Config<M>,
    group: u32,
    chosen: &Offers,
    flags: &Flags,
    console: &mut C,
    steps: &mut Steps<L>,
) -> Result<Turned<M>, ConsoleFault>
    requires played { IsPlayed M.is_of M.height_held program.now settings start }
    requires own { group ≡ own_group start.stage }
    requires offers { AllByRecursion
        (IsOffer program.now settings.height start.state group) chosen.now }
    requires flagged { AreAdmitted program.now start.state finite.empty chosen.now flags.now }
    requires turns { start.turns ≤ settings.limit }
    requires limit { settings.limit ≤ MOST_TURNS }
    ensures acted { IfOk result (AreActed C.talk C.left console.old console.new program.now settings
        (admitted chosen.now flags.now) start) }
    ensures counted { IfOk result (AreTurnsAdded settings (admitted chosen.now flags.now) start) }
    ensures played { IfOk result (λ turned. IsPlayed M.is_of M.height_held program.now settings
        (config_left turned)) }
    ensures begun { OnErr result (Did C.talk C.left console.old console.new
        (BeginsActs program.now settings (position_of start) (admitted chosen.now flags.now))) }
    ensures risen { steps.old ≤ steps.new }
    ensures cause { ConsoleCause (C.faults console.old) (C.faults console.new) result }
{
    players_are_lawful();
    program.parts();
    let mut config = start;
    for i in 0..chosen.len() {
        if *flags.get(i) {
            config = match act_offer(
                alloc,
                program,
                settings,
                config,
                group,
                chosen.get(i),
                console,
                steps,
            )? {
                Turned::Done(next) => next,
                Turned::Over(ended) => return Ok(Turned::Over(ended)),
            };
        }
    }
    Ok(Turned::Done(config))
}

// Does an offer of the stage's own group that applies, and writes its lines; or says why it cannot
// be done.
fn act_offer<C: Console, M: Matcher, L: Ledger>(
    alloc: Global,
    program: &Program,
    settings: Settings,
    config: Config<M>,
    group: u32,
    offer: &Offer,
    console: &mut C,
    steps: &mut Steps<L>,
) -> Result<Turned<M>, ConsoleFault>
    requires played { IsPlayed M.is_of M.height_held program.now settings config }
    requires own { group ≡ own_group config.stage }
    requires offer { IsOffer program.now settings.height config.state group offer.now }
    requires turns { config.turns ≤ settings.limit }
    requires limit { settings.limit ≤ MOST_TURNS }
    ensures acted { IfOk result (IsOfferActed C.talk C.left console.old console.new program.now
        settings offer.now config) }
    ensures moved { IfOk result (IsOfferMoved program.now settings offer.now config) }
    ensures played { IfOk result (λ turned. IsPlayed M.is_of M.height_held program.now settings
        (config_left turned)) }
    ensures begun { OnErr result (Did C.talk C.left console.old console.new
        (BeginsOffer program.now settings offer.now (position_of config))) }
    ensures counted { steps.old ≤ steps.new }
    ensures cause { ConsoleCause (C.faults console.old) (C.faults console.new) result }
{
    program.parts();
    let limit = settings.limit;
    if config.turns() >= limit {
        return Ok(over(config, EndWord::Turns));
    }
    let place = place_in(config.matcher(), group, offer);
    act(
        alloc, program, settings, config, group, place, console, steps,
    )
}

// The place of an offer that the group has, counted from 0.
fn place_in<M: Matcher>(matcher: &M, group: u32, offer: &Offer) -> usize
    requires listed { group < length (M.offers_held matcher.now) }
    requires there { Contains (offers_of (M.offers_held matcher.now) group) offer.now }
    ensures { slice_get (offers_of (M.offers_held matcher.now) group) result ≡ Some offer.now }
{
    match place_of(matcher, group, offer) {
        Some(place) => place,
        None => 0,
    }
}
