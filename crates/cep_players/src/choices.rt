// What all players choose.
ghost use Rattle.std.specs.Prelude.{◌≡◌, ◌<◌, ◌≤◌, length, IfOk, OnErr};
ghost use Rattle.cep_base.specs.Talk.{ConsoleCause};
ghost use Rattle.cep_base.specs.declared.limits.TheConstants.{MOST_OFFERS, MOST_TYPED};
ghost use Rattle.cep_rule.specs.Matching.{offers_of};
ghost use Rattle.cep_run.specs.Fronts.{FellShort};
ghost use Rattle.cep_players.specs.Choosing.{IsChoosing, ArePicked};
ghost use Rattle.cep_players.specs.Dialogues.{choose_line};
ghost use Rattle.cep_players.specs.Playing.{ChooseSome};

use cep_base::{Console, ConsoleFault, Text};
use cep_lines::EndWord;
use cep_offer::Matcher;
use cep_round::Offers;
use cep_run::choice::Choice;
use cep_run::copying::copy_offer;
use cep_run::deciding::{Spent, ask};
use cep_run::laws::one_choice_is_heard;
use std::alloc::{AllocError, Global};

// What the players chose: an offer each, or the end of the run.
#[derive(Drop)]
pub enum Chosen {
    All(Offers),
    Over(EndWord),
}

// Asks each of so many players for one of the offers of the group.
pub(crate) fn choices<C: Console, M: Matcher>(
    alloc: Global,
    players: u32,
    matcher: &M,
    group: u32,
    console: &mut C,
    spent: &mut Spent,
) -> Result<Chosen, ConsoleFault>
    requires listed { group < length (M.offers_held matcher.now) }
    requires few { length (offers_of (M.offers_held matcher.now) group) ≤ MOST_OFFERS }
    requires taken { spent.old.taken ≤ MOST_TYPED }
    ensures heard { IfOk result (IsChoosing C.talk C.left console.old console.new players
        (offers_of (M.offers_held matcher.now) group) spent.old spent.new) }
    ensures picked { IfOk result (ArePicked players (offers_of (M.offers_held matcher.now) group)) }
    ensures begun { OnErr result (FellShort C.talk C.left console.old console.new (λ come. come)
        (ChooseSome players (offers_of (M.offers_held matcher.now) group) spent.old)) }
    ensures spent { spent.new ≡ record spent.old { taken = spent.new.taken } }
    ensures within { spent.new.taken ≤ MOST_TYPED }
    ensures cause { ConsoleCause (C.faults console.old) (C.faults console.new) result }
{
    one_choice_is_heard();
    let n = matcher.count(group) as u32;
    let mut chosen = Offers::new(alloc);
    for player in 0..players {
        let line = line_for(alloc, player + 1)?;
        match ask(line.bytes(), n, console, &mut spent.taken)? {
            Choice::Place(place) => {
                let offer = copy_offer(alloc, matcher.offer(group, place as usize - 1))?;
                chosen.push(offer)?;
            }
            Choice::NoMore => return Ok(Chosen::Over(EndWord::Input)),
            Choice::NoRoom => return Ok(Chosen::Over(EndWord::Typed)),
        }
    }
    Ok(Chosen::All(chosen))
}

// The line that asks a player, by number from 1 on.
#[tactic(auto, using(std::proofs::Common::append_assoc), unfolding(crate::specs::Dialogues::choose_line))]
fn line_for(alloc: Global, player: u32) -> Result<Text, AllocError>
    ensures { IfOk result (λ text. text ≡ choose_line player) }
{
    let mut line = Text::new(alloc);
    line.append(b"? choose ")?;
    line.number(u64::from(player))?;
    line.append(b"\n")?;
    Ok(line)
}
