//! Which of the offers of a turn is chosen: by the player, or by the seed.
ghost use Rattle.std.specs.Prelude.{◌≡◌, ◌↔◌, ℕ, ◌+◌, ◌<◌, ◌≤◌, ◌++◌, length, All, IfOk, OnOk, OnErr, IsTrue};
ghost use Rattle.cep_base.specs.declared.limits.TheConstants.{MOST_OFFERS, MOST_TURNS, MOST_TYPED};
ghost use Rattle.cep_base.specs.Talk.{outs, Did, ConsoleCause};
ghost use Rattle.cep_rule.specs.Matching.{offers_of};
ghost use Rattle.cep_rule.specs.Shapes.{IsOfferOf};
ghost use Rattle.cep_choice.specs.Draws.{generator_behind, place_drawn};
ghost use Rattle.cep_lines.specs.Lines.{offer_lines};
ghost use Rattle.cep_run.specs.Choice.{IsChoiceWithin};
ghost use Rattle.cep_run.specs.Begun.{PutsFront, AsksSome, SettlesSome};
ghost use Rattle.cep_run.specs.Deciding.{IsPlayers};
ghost use Rattle.cep_run.specs.Fronts.{FellShort};
ghost use Rattle.cep_run.specs.Turn.{AsksPlayer, HasSpent, Settles};

use crate::choice::{Choice, choose};
use cep_base::{Console, ConsoleFault, Text};
use cep_choice::Draw;
use cep_lines::put_offers;
use cep_machine::Config;
use cep_offer::Matcher;
use cep_rule::Program;
use std::alloc::{AllocError, Global};

/// What the decisions of a run have consumed.
#[derive(Drop)]
pub struct Spent {
    /// How many bytes were taken of what is typed.
    pub taken: u64,
    /// How many words of the seed were drawn.
    pub drawn: u32,
    /// What the seed draws from now on.
    pub draw: Draw,
}

impl Spent {
    /// Nothing yet, for a run with this seed.
    pub fn nothing(seed: u64) -> Spent
        ensures taken { result.taken ≡ 0 }
        ensures drawn { result.drawn ≡ 0 }
        ensures draw { result.draw ≡ generator_behind seed 0 }
    {
        Spent {
            taken: 0,
            drawn: 0,
            draw: Draw::new(seed),
        }
    }

    /// The place among `n` that is taken where the player does not decide, from 1 to `n`.
    pub fn place(&mut self, n: u32) -> u32
        requires some { 0 < n }
        requires few { self.old.drawn < MOST_TURNS }
        ensures lone { n ≡ 1 → (result ≡ 1) × (self.new ≡ self.old) }
        ensures drawn { 1 < n
            → (seed : ℕ)
            → self.old.draw ≡ generator_behind seed self.old.drawn
            → (result ≡ place_drawn seed self.old.drawn n)
            × (self.new ≡ record {
              taken = self.old.taken;
              drawn = self.old.drawn + 1;
              draw = generator_behind seed (self.old.drawn + 1);
            }) }
        ensures within { (0 < result) × (result ≤ n) }
    {
        let place = self.draw.place(n);
        if n > 1 {
            self.drawn += 1;
        }
        place
    }
}

/// Whether the player decides among so many offers of a group: in an interactive stage, where they are
/// of its own rules, even a lone one, or several that leave it.
pub fn is_players(program: &Program, stage: u32, group: u32, offers: usize) -> bool
    requires { stage < length program.now.stages }
    ensures { IsTrue result ↔ IsPlayers program.now stage group offers }
{
    let parts = program.parts();
    parts.stages.get(stage as usize).interactive && (group == 2 * stage || offers > 1)
}

/// Writes a text, and reads until a place among `n` is chosen.
pub fn ask<C: Console>(
    text: &[u8],
    n: u32,
    console: &mut C,
    taken: &mut u64,
) -> Result<Choice, ConsoleFault>
    requires { taken.old ≤ MOST_TYPED }
    ensures heard { IfOk result (λ choice. Did C.talk C.left console.old console.new
        (AsksPlayer text.now n taken.old choice taken.new)) }
    ensures begun { OnErr result (FellShort C.talk C.left console.old console.new (λ come. come)
        (AsksSome text.now n taken.old)) }
    ensures place { IfOk result (λ choice. IsChoiceWithin n choice) }
    ensures within { taken.new ≤ MOST_TYPED }
    ensures cause { ConsoleCause (C.faults console.old) (C.faults console.new) result }
{
    console.put(text)?;
    choose(console, n, taken)
}

// The offers of a group, and the line that asks for a choice among them.
#[tactic(auto, using(std::proofs::Common::append_assoc))]
fn question<M: Matcher>(
    alloc: Global,
    program: &Program,
    matcher: &M,
    group: u32,
    asking: &[u8],
) -> Result<Text, AllocError>
    requires listed { group < length (M.offers_held matcher.now) }
    requires offers { All (IsOfferOf program.now) (offers_of (M.offers_held matcher.now) group) }
    requires few { length (offers_of (M.offers_held matcher.now) group) ≤ MOST_OFFERS }
    ensures { IfOk result (λ text. text
        ≡ offer_lines program.now 1 (offers_of (M.offers_held matcher.now) group) ++ asking.now) }
{
    let mut text = Text::new(alloc);
    put_offers(program, matcher, group, &mut text)?;
    text.append(asking)?;
    Ok(text)
}

/// Writes the offers of a group, and asks nobody. Where nobody reads them, none are written.
pub fn tell<C: Console, M: Matcher>(
    alloc: Global,
    program: &Program,
    matcher: &M,
    group: u32,
    console: &mut C,
) -> Result<(), ConsoleFault>
    requires listed { group < length (M.offers_held matcher.now) }
    requires offers { All (IsOfferOf program.now) (offers_of (M.offers_held matcher.now) group) }
    requires few { length (offers_of (M.offers_held matcher.now) group) ≤ MOST_OFFERS }
    ensures told { OnOk result (Did C.talk C.left console.old console.new (λ come events rest.
        (events ≡ outs (offer_lines program.now 1 (offers_of (M.offers_held matcher.now) group)))
        × (rest ≡ come))) }
    ensures begun { OnErr result (Did C.talk C.left console.old console.new
        (PutsFront (offer_lines program.now 1 (offers_of (M.offers_held matcher.now) group)))) }
    ensures cause { ConsoleCause (C.faults console.old) (C.faults console.new) result }
{
    if !console.is_read() {
        return Ok(());
    }
    let mut lines = Text::new(alloc);
    put_offers(program, matcher, group, &mut lines)?;
    console.put(lines.bytes())
}

/// Writes the offers of the group that a configuration asks, and has one of them chosen: where it is
/// the player's, by one who is asked with this line.
pub fn decide<C: Console, M: Matcher>(
    alloc: Global,
    program: &Program,
    seed: u64,
    config: &Config<M>,
    group: u32,
    asking: &[u8],
    console: &mut C,
    spent: &mut Spent,
) -> Result<Choice, ConsoleFault>
    requires staged { config.now.stage < length program.now.stages }
    requires listed { group < length (M.offers_held config.now.matcher) }
    requires offers { All (IsOfferOf program.now)
        (offers_of (M.offers_held config.now.matcher) group) }
    requires some { 0 < length (offers_of (M.offers_held config.now.matcher) group) }
    requires few { length (offers_of (M.offers_held config.now.matcher) group) ≤ MOST_OFFERS }
    requires turns { config.now.turns < MOST_TURNS }
    requires spent { HasSpent seed config.now.turns spent.old }
    ensures settled { IfOk result (λ choice. Did C.talk C.left console.old console.new
        (Settles asking.now program.now seed config.now.stage group
        (offers_of (M.offers_held config.now.matcher) group) spent.old choice spent.new)) }
    ensures begun { OnErr result (FellShort C.talk C.left console.old console.new (λ come. come)
        (SettlesSome asking.now program.now seed config.now.stage group
        (offers_of (M.offers_held config.now.matcher) group) spent.old)) }
    ensures place { IfOk result
        (λ choice. IsChoiceWithin (length (offers_of (M.offers_held config.now.matcher) group))
        choice) }
    ensures spent { HasSpent seed (config.now.turns + 1) spent.new }
    ensures cause { ConsoleCause (C.faults console.old) (C.faults console.new) result }
{
    let matcher = config.matcher();
    let offers = matcher.count(group);
    if is_players(program, config.stage(), group, offers) {
        let text = question(alloc, program, matcher, group, asking)?;
        ask(text.bytes(), offers as u32, console, &mut spent.taken)
    } else {
        tell(alloc, program, matcher, group, console)?;
        Ok(Choice::Place(spent.place(offers as u32)))
    }
}
