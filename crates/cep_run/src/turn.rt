//! One turn of a run: the offers are written, one of them is chosen, and the step is done.
ghost use Rattle.std.specs.Prelude.{◌≡◌, ℕ, ◌+◌, ◌<◌, ◌≤◌, List, ◌++◌, length, slice_get, None, Some, IfOk, MatchOption, OnOk, OnErr};
ghost use Rattle.cep_base.specs.declared.limits.TheConstants.{MOST_TURNS};
ghost use Rattle.cep_base.specs.Talk.{outs, Did, ConsoleCause};
ghost use Rattle.cep_term.specs.Multiset.{Multiset};
ghost use Rattle.cep_rule.specs.declared.rule.Rule.{Rule};
ghost use Rattle.cep_rule.specs.Limits.{IsHeight};
ghost use Rattle.cep_rule.specs.State.{IsState};
ghost use Rattle.cep_rule.specs.Offers.{Applies};
ghost use Rattle.cep_rule.specs.Stages.{IsAsked};
ghost use Rattle.cep_rule.specs.Matching.{offers_of};
ghost use Rattle.cep_machine.specs.Asking.{asked_offers, IsAskedIn};
ghost use Rattle.cep_lines.specs.Lines.{expected_listing};
ghost use Rattle.cep_run.specs.declared.turn.Turned.TheVariants.{Over};
ghost use Rattle.cep_run.specs.Fronts.{FellShort, IsRunOf};
ghost use Rattle.cep_run.specs.Begun.{PutsFront, BeginsAct, IsQuestionOrTurn};
ghost use Rattle.cep_run.specs.Dialogue.{asking_line};
ghost use Rattle.cep_rule.specs.Matching.{RoseBy};
ghost use Rattle.cep_run.specs.Costs.{IsDeedCost};
ghost use Rattle.cep_run.specs.Turn.{position_of, supply_with, HasSpent, IsOfferedHere, IsPlayed, AreStepLines, IsActed, IsMoved, RoseByAct, IsTurned, config_left, limit_word};

use crate::choice::Choice;
use crate::deciding::{Spent, decide};
use crate::laws::runs_go_on;
use crate::proving::prove_backs;
use crate::settings::Settings;
use cep_base::{Console, ConsoleFault, Steps, Text};
use cep_lines::{EndWord, put_expected_listing, put_step_lines};
use cep_machine::Config;
use cep_offer::Matcher;
use cep_rule::laws::derivations_have_shape;
use cep_rule::{Offer, Program};
use cep_step::{Limit, Weighed};
use std::alloc::{AllocError, Global};
use std::sync::ledger::Ledger;

/// Where a run ended, and why.
#[derive(Drop)]
pub struct Ended<M: Matcher> {
    pub config: Config<M>,
    pub word: EndWord,
}

/// What a turn comes to.
#[derive(Drop)]
pub enum Turned<M: Matcher> {
    /// The step was done.
    Done(Config<M>),
    /// The run ends before a step.
    Over(Ended<M>),
}

// The run ends in the configuration, for this reason.
fn over<M: Matcher>(config: Config<M>, word: EndWord) -> Turned<M>
    ensures { result ≡ Over (record { config = config; word = word }) }
{
    Turned::Over(Ended { config, word })
}

/// Does the step by the offer at a place, counted from 0, and writes it with what proves its backward
/// premises and the stage that it leads to; or says which limit it would pass. The step is weighed first, so
/// that nothing is proved of one that is not done. Its lines are made before the state is changed, since the
/// offer is the matcher's, which goes with the step; they are written after it.
pub fn act<C: Console, M: Matcher, L: Ledger>(
    alloc: Global,
    program: &Program,
    settings: Settings,
    config: Config<M>,
    group: u32,
    place: usize,
    console: &mut C,
    steps: &mut Steps<L>,
) -> Result<Turned<M>, ConsoleFault>
    requires played { IsPlayed M.is_of M.height_held program.now settings config }
    requires listed { group < length (M.offers_held config.matcher) }
    requires asked { offers_of (M.offers_held config.matcher) group ≡ asked_offers
        (M.offers_held config.matcher) config.stage }
    requires within { place < length (offers_of (M.offers_held config.matcher) group) }
    requires turns { config.turns < MOST_TURNS }
    ensures acted { IfOk result (IsActed C.talk C.left console.old console.new program.now
        settings.height
        (offers_of (M.offers_held config.matcher) group) place config) }
    ensures moved { IfOk result
        (IsMoved program.now (offers_of (M.offers_held config.matcher) group) place config) }
    ensures ticked { IfOk result (λ turned. RoseByAct M.may_edit program.now settings.height
        (offers_of (M.offers_held config.matcher) group) place config turned steps.old steps.new) }
    ensures played { IfOk result (λ turned. IsPlayed M.is_of M.height_held program.now settings
        (config_left turned)) }
    ensures begun { OnErr result (Did C.talk C.left console.old console.new
        (BeginsAct program.now settings.height
        (offers_of (M.offers_held config.matcher) group) place (position_of config))) }
    ensures counted { steps.old ≤ steps.new }
    ensures cause { ConsoleCause (C.faults console.old) (C.faults console.new) result }
{
    M::kept_premises_cost_nothing();
    match config.weigh(alloc, program, group, place)? {
        Weighed::Passes(limit, _) => Ok(over(config, word_of(limit))),
        Weighed::Within(change) => {
            let offer = config.matcher().offer(group, place);
            let lines = step_lines(alloc, program, offer, settings.height, console, steps)?;
            let config = config.go(alloc, program, &change, steps)?;
            tell_deed(program, &config, lines, console)?;
            Ok(Turned::Done(config))
        }
    }
}

// The lines of the step by an offer that applies, with what proves its backward premises. Where nobody reads
// them, none are made.
fn step_lines<C: Console, L: Ledger>(
    alloc: Global,
    program: &Program,
    offer: &Offer,
    height: u32,
    console: &C,
    steps: &mut Steps<L>,
) -> Result<Option<Text>, AllocError>
    requires height { IsHeight height }
    requires applies { (state : Multiset) × Applies program.now height state offer.now }
    ensures lines { IfOk result (AreStepLines program.now height offer.now
        (C.talk console.now ≡ None)) }
    ensures ticked { OnOk result
        ((rule : Rule) → slice_get program.now.rules offer.now.rule ≡ Some rule
        → steps.new ≡ steps.old + length rule.backs) }
    ensures counted { steps.old ≤ steps.new }
{
    derivations_have_shape();
    let proofs = prove_backs(alloc, program, offer, height, steps)?;
    if !console.is_read() {
        return Ok(None);
    }
    let rule = program.parts().rules.get(offer.rule as usize);
    let mut lines = Text::new(alloc);
    put_step_lines(program, offer, proofs.as_slice(), rule.next, &mut lines)?;
    Ok(Some(lines))
}

// Writes the lines of a step that led to this configuration, if there are any, and the listing of its state,
// where one is expected.
fn tell_deed<C: Console, M: Matcher>(
    program: &Program,
    config: &Config<M>,
    lines: Option<Text>,
    console: &mut C,
) -> Result<(), ConsoleFault>
    requires state { IsState program.now.signature config.now.state }
    ensures told { OnOk result ((text : List ℕ)
        → MatchOption lines (C.talk console.old ≡ None) (λ bytes. bytes ≡ text)
        → Did C.talk C.left console.old console.new (λ come events rest.
        (events ≡ outs (text ++ expected_listing program.now.signature
        config.now.turns config.now.state)) × (rest ≡ come))) }
    ensures begun { OnErr result ((text : List ℕ)
        → MatchOption lines (C.talk console.old ≡ None) (λ bytes. bytes ≡ text)
        → Did C.talk C.left console.old console.new
        (PutsFront (text ++ expected_listing program.now.signature
        config.now.turns config.now.state))) }
    ensures cause { ConsoleCause (C.faults console.old) (C.faults console.new) result }
{
    let Some(mut lines) = lines else {
        return Ok(());
    };
    put_expected_listing(program, config.turns(), config.state(), &mut lines)?;
    console.put(lines.bytes())
}

// The word with which a step that passes a limit ends a run.
fn word_of(limit: Limit) -> EndWord
    ensures { result ≡ limit_word limit }
{
    match limit {
        Limit::Atom => EndWord::Atom,
        Limit::State => EndWord::State,
    }
}

/// Does one turn of the group that the stage asks, unless the run ends before its step. Some turns remain. A
/// refused call said a prefix of some run from here.
pub(crate) fn turn<C: Console, M: Matcher, L: Ledger>(
    alloc: Global,
    program: &Program,
    settings: Settings,
    config: Config<M>,
    group: u32,
    console: &mut C,
    spent: &mut Spent,
    steps: &mut Steps<L>,
) -> Result<Turned<M>, ConsoleFault>
    requires played { IsPlayed M.is_of M.height_held program.now settings config }
    requires limit { settings.limit ≤ MOST_TURNS }
    requires remain { config.turns < settings.limit }
    requires listed { IsAskedIn (M.offers_held config.matcher) config.stage group }
    requires asked { IsAsked program.now (M.height_held config.matcher)
        config.state config.stage group }
    requires offers { offers_of (M.offers_held config.matcher) group
        ≡ asked_offers (M.offers_held config.matcher) config.stage }
    requires spent { HasSpent settings.seed config.turns spent.old }
    ensures turned { IfOk result (IsTurned C.talk C.left console.old console.new asking_line
        program.now
        settings (λ deed. RoseBy (IsDeedCost M.may_edit program.now settings.height deed) steps.old
        steps.new) (steps.new ≡ steps.old)
        (offers_of (M.offers_held config.matcher) group) config spent.old spent.new) }
    ensures played { IfOk result (λ turned. IsPlayed M.is_of M.height_held program.now settings
        (config_left turned)) }
    ensures begun { OnErr result (FellShort C.talk C.left console.old console.new
        (λ come. supply_with come spent.old) (IsRunOf program.now settings (position_of config))) }
    ensures spent { IfOk result (λ _. HasSpent settings.seed (config.turns + 1) spent.new) }
    ensures counted { steps.old ≤ steps.new }
    ensures cause { ConsoleCause (C.faults console.old) (C.faults console.new) result }
{
    runs_go_on();
    program.parts();
    if !config.matcher().len_ok(group) {
        return Ok(over(config, EndWord::Offers));
    }
    asked_turn(
        alloc,
        program,
        settings,
        config,
        group,
        b"? choose\n",
        console,
        spent,
        steps,
    )
}

/// Does one turn of the group that is asked here, unless the run ends before its step. The player is
/// asked with this line. A refused call said a prefix of a question, or of a turn.
pub fn asked_turn<C: Console, M: Matcher, L: Ledger>(
    alloc: Global,
    program: &Program,
    settings: Settings,
    config: Config<M>,
    group: u32,
    asking: &[u8],
    console: &mut C,
    spent: &mut Spent,
    steps: &mut Steps<L>,
) -> Result<Turned<M>, ConsoleFault>
    requires played { IsPlayed M.is_of M.height_held program.now settings config }
    requires limit { settings.limit ≤ MOST_TURNS }
    requires listed { group < length (M.offers_held config.matcher) }
    requires asked { offers_of (M.offers_held config.matcher) group ≡ asked_offers
        (M.offers_held config.matcher) config.stage }
    requires here { IsOfferedHere program.now settings (position_of config) group
        (offers_of (M.offers_held config.matcher) group) }
    requires spent { HasSpent settings.seed config.turns spent.old }
    ensures turned { IfOk result (IsTurned C.talk C.left console.old console.new asking.now
        program.now
        settings (λ deed. RoseBy (IsDeedCost M.may_edit program.now settings.height deed) steps.old
        steps.new) (steps.new ≡ steps.old) (offers_of (M.offers_held config.matcher) group) config
        spent.old spent.new) }
    ensures played { IfOk result (λ turned. IsPlayed M.is_of M.height_held program.now settings
        (config_left turned)) }
    ensures begun { OnErr result (FellShort C.talk C.left console.old console.new
        (λ come. supply_with come spent.old)
        (IsQuestionOrTurn asking.now program.now settings (position_of config))) }
    ensures spent { HasSpent settings.seed (config.turns + 1) spent.new }
    ensures counted { steps.old ≤ steps.new }
    ensures cause { ConsoleCause (C.faults console.old) (C.faults console.new) result }
{
    program.parts();
    match decide(
        alloc,
        program,
        settings.seed,
        &config,
        group,
        asking,
        console,
        spent,
    )? {
        Choice::Place(place) => act(
            alloc,
            program,
            settings,
            config,
            group,
            place as usize - 1,
            console,
            steps,
        ),
        Choice::NoMore => Ok(over(config, EndWord::Input)),
        Choice::NoRoom => Ok(over(config, EndWord::Typed)),
    }
}
