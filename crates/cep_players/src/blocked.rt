// The lines of offers that are blocked.
ghost use Rattle.std.specs.Prelude.{◌≡◌, ◌≤◌, ◌++◌, length, OnOk, OnErr};
ghost use Rattle.std.specs.List.{AllByRecursion};
ghost use Rattle.cep_base.specs.Talk.{outs, Did, ConsoleCause};
ghost use Rattle.cep_rule.specs.Shapes.{IsOfferOf};
ghost use Rattle.cep_round.specs.declared.limits.TheConstants.{MOST_PLAYERS};
ghost use Rattle.cep_run.specs.Begun.{PutsFront};
ghost use Rattle.cep_players.specs.Dialogues.{blocked_line, blocked_lines};

use cep_base::{Console, ConsoleFault, Text};
use cep_round::{Flags, Offers};
use cep_rule::{Offer, Program};
use cep_text::put_offer;
use std::alloc::{AllocError, Global};

// Writes the lines of the offers that are blocked.
pub(crate) fn tell_blocked<C: Console>(
    alloc: Global,
    program: &Program,
    chosen: &Offers,
    flags: &Flags,
    console: &mut C,
) -> Result<(), ConsoleFault>
    requires offers { AllByRecursion (IsOfferOf program.now) chosen.now }
    requires flags { length flags.now ≡ length chosen.now }
    requires few { length chosen.now ≤ MOST_PLAYERS }
    ensures told { OnOk result (Did C.talk C.left console.old console.new (λ come events rest.
        (events ≡ outs (blocked_lines program.now 1 chosen.now flags.now)) × (rest ≡ come))) }
    ensures begun { OnErr result (Did C.talk C.left console.old console.new
        (PutsFront (blocked_lines program.now 1 chosen.now flags.now))) }
    ensures cause { ConsoleCause (C.faults console.old) (C.faults console.new) result }
{
    let mut lines = Text::new(alloc);
    put_blocked(program, chosen, flags, &mut lines)?;
    console.put(lines.bytes())
}

fn put_blocked(
    program: &Program,
    chosen: &Offers,
    flags: &Flags,
    out: &mut Text,
) -> Result<(), AllocError>
    requires offers { AllByRecursion (IsOfferOf program.now) chosen.now }
    requires flags { length flags.now ≡ length chosen.now }
    requires few { length chosen.now ≤ MOST_PLAYERS }
    ensures { OnOk result (out.new
        ≡ out.old ++ blocked_lines program.now 1 chosen.now flags.now) }
{
    for i in 0..chosen.len() {
        if !*flags.get(i) {
            put_blocked_line(program, i as u32 + 1, chosen.get(i), out)?;
        }
    }
    Ok(())
}

#[tactic(auto, using(std::proofs::Common::append_assoc), unfolding(crate::specs::Dialogues::blocked_line))]
fn put_blocked_line(
    program: &Program,
    player: u32,
    offer: &Offer,
    out: &mut Text,
) -> Result<(), AllocError>
    requires { IsOfferOf program.now offer.now }
    ensures { OnOk result (out.new ≡ out.old ++ blocked_line program.now player offer.now) }
{
    out.append(b"? blocked ")?;
    out.number(u64::from(player))?;
    out.append(b" ")?;
    put_offer(program, offer, out)?;
    out.append(b"\n")
}
