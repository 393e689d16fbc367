// The network by itself: many edits by which nothing is found.
ghost use Rattle.std.specs.Prelude.{◌≡◌, ◌<◌};

use crate::turns::after_turns;
use cep_base::Steps;
use cep_ground::accept;
use cep_machine::Config;
use cep_net::Net;
use cep_offer::Matcher;
use cep_rule::Program;
use std::alloc::{AllocError, Global};
use std::marker::Brand;
use std::sync::ledger::{Blank, Ledger};
use std::test::Fail;

// The declarations of so many things of one type.
fn things(alloc: Global, many: u32) -> Result<String, AllocError> {
    let mut text = String::from_str(alloc, "thing : type.\n")?;
    for i in 0..many {
        text.push_str(format!(in alloc; "c{i} : thing.\n")?.as_str())?;
    }
    Ok(text)
}

// Atoms of a predicate, one for each of the things from one on up to another.
fn atoms(alloc: Global, pred: &str, from: u32, to: u32) -> Result<String, AllocError> {
    let mut text = String::new(alloc);
    for i in from..to {
        text.push_str(format!(in alloc; "{pred} c{i}, ")?.as_str())?;
    }
    Ok(text)
}

// A world of so many things, of which the first are `p` and all others `q`, and nothing is both, while a
// switch that the rule for both needs is turned on and off.
fn switched(alloc: Global, many: u32, first: u32) -> Result<String, AllocError> {
    let things = things(alloc, many)?;
    let second = atoms(alloc, "q", first, many)?;
    let first = atoms(alloc, "p", 0, first)?;
    format!(in alloc;
        "{things}p thing : pred. q thing : pred. off : pred. u : pred.\nstage main = {{\n  both : p X * q X * u -o u.\n  on : off -o u.\n  out : u -o off.\n}}\n#interactive main.\n#trace _ main {{ {first}{second}off }}.\n"
    )
}

// How many turns are done over the network, counted by a ledger.
fn turns_alone<L: Ledger>(
    alloc: Global,
    program: &Program,
    turns: u32,
    blank: Blank,
) -> Result<u32, Fail>
    requires name { blank.name ≡ L.name }
    requires parts { blank.parts ≡ L.parts }
    requires open { 0 < L.parts }
{
    let mut steps = Steps::<L>::new(blank);
    let start = Config::<Net>::begin(alloc, program, 128, &mut steps)?;
    let end = after_turns(alloc, program, start, turns, &mut steps)?;
    Ok(end.turns())
}

// How many turns the switch is turned.
fn turns_of_switch(alloc: Global, many: u32, turns: u32) -> Result<u32, Fail> {
    let text = switched(alloc, many, 5_000)?;
    let program = accept(alloc, text.as_bytes())?.map_err(|_| "refused")?;
    turns_alone::<Brand>(alloc, &program, turns, Blank::new(1))
}

#[test]
fn a_switch_is_turned_500000_times_beside_10000_things(rt: HostRuntime) -> Result<(), Fail> {
    assert!(rt; turns_of_switch(rt.alloc(), 10_000, 500_000)? == 500_000);
    Ok(())
}
