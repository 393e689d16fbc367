// How many partial matches stand in the network, level by level.
ghost use Rattle.std.specs.Prelude.{◌≡◌, ◌<◌};

use crate::turns::after_turns;
use cep_base::Steps;
use cep_ground::accept;
use cep_machine::Config;
use cep_net::Net;
use cep_rule::Program;
use std::alloc::Global;
use std::marker::Brand;
use std::process::Abort;
use std::sync::ledger::{Blank, Ledger};
use std::test::Fail;

// Copies that come one by one, and are paired when there are two.
fn coming() -> &'static str {
    "a : pred. b : pred. c : pred.\nstage main = {\n  come : b -o a.\n  pair : a * a -o c.\n}\n#trace _ main { b, b }.\n"
}

// Two things in one place, and one of them in another too.
fn placed() -> &'static str {
    "thing : type. place : type. x : thing. y : thing. p : place. q : place.\nat thing place : pred.\nstage main = {\n  meet : at X L * at Y L -o ().\n}\n#trace _ main { at x p, at y p, at x q }.\n"
}

// Atoms that come one by one, of which some go together: `p a`, `q b b`, `q a b`, `p b` and a second copy of `q a b`; at last both copies
// of it go.
fn joining() -> &'static str {
    "t : type. a : t. b : t. p t : pred. q t t : pred. never : pred.
k0 : pred. k1 : pred. k2 : pred. k3 : pred. k4 : pred. k5 : pred.
stage main = {
  one : k0 -o p a * k1.
  two : k1 -o q b b * k2.
  three : k2 -o q a b * k3.
  four : k3 -o p b * k4.
  five : k4 -o q a b * k5.
  six : k5 * q a b * q a b -o ().
  both : p X * q X Y * never -o ().
}
#trace _ main { k0 }.
"
}

// How many matches of the rule's first premises, so many of them, stand after so many turns, counted by
// a ledger.
fn standing_after<L: Ledger>(
    alloc: Global,
    program: &Program,
    turns: u32,
    rule: u32,
    level: u32,
    blank: Blank,
) -> Result<usize, Fail>
    requires name { blank.name ≡ L.name }
    requires parts { blank.parts ≡ L.parts }
    requires open { 0 < L.parts }
{
    let mut steps = Steps::<L>::new(blank);
    let start = Config::<Net>::begin(alloc, program, 128, &mut steps)?;
    let config = after_turns(alloc, program, start, turns, &mut steps)?;
    let rules = &program.parts().rules;
    if rule as usize >= rules.len() || level as usize > rules.get(rule as usize).premises.len() {
        return Err(Fail::from("no such premise"));
    }
    Ok(config.matcher().standing(rule, level))
}

// The same at the levels of a rule with two premises, of the program of a text.
fn levels_after(alloc: Global, text: &str, turns: u32, rule: u32) -> Result<[usize; 3], Fail> {
    let program = accept(alloc, text.as_bytes())?.map_err(|_| "refused")?;
    let none = standing_after::<Brand>(alloc, &program, turns, rule, 0, Blank::new(1))?;
    let one = standing_after::<Brand>(alloc, &program, turns, rule, 1, Blank::new(1))?;
    let both = standing_after::<Brand>(alloc, &program, turns, rule, 2, Blank::new(1))?;
    Ok([none, one, both])
}

// So many matches of the rule stand at these levels after no turn, after one, and so on.
fn expect_levels(
    rt: &impl Abort,
    alloc: Global,
    (text, rule): (&str, u32),
    levels: &[[usize; 3]],
) -> Result<(), Fail> {
    let mut turns = 0u32;
    for wanted in levels {
        let told = levels_after(alloc, text, turns, rule)?;
        assert!(rt; told == *wanted, "after {turns}");
        turns = turns.saturating_add(1);
    }
    Ok(())
}

// Before the first premise one match stands. One copy is not taken twice, two are paired in one way, and a second copy of an atom
// gives no match that the first has not given.
#[test]
fn matches_stand_while_their_atoms_are_there(rt: HostRuntime) -> Result<(), Fail> {
    let paired = [[1, 0, 0], [1, 1, 0], [1, 1, 1], [1, 0, 0]];
    expect_levels(&rt, rt.alloc(), (coming(), 1), &paired)?;
    expect_levels(&rt, rt.alloc(), (placed(), 0), &[[1, 3, 2]])?;
    let joined = [
        [1, 0, 0],
        [1, 1, 0],
        [1, 1, 0],
        [1, 1, 1],
        [1, 2, 2],
        [1, 2, 2],
        [1, 2, 1],
    ];
    expect_levels(&rt, rt.alloc(), (joining(), 6), &joined)
}
