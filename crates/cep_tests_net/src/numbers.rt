// The numbers by which steps pass limits.
ghost use Rattle.std.specs.Prelude.{◌≡◌, ◌<◌};

use cep_base::Steps;
use cep_ground::accept;
use cep_machine::{Config, Stepped};
use cep_offer::Matcher;
use cep_rule::Program;
use cep_scratch::Scratch;
use cep_step::Limit;
use std::alloc::{AllocError, Global};
use std::marker::Brand;
use std::process::Abort;
use std::sync::ledger::{Blank, Ledger};
use std::test::Fail;

// Which limit the first step passes, and by which number.
fn first_step<L: Ledger>(
    alloc: Global,
    program: &Program,
    blank: Blank,
) -> Result<(Limit, u64), Fail>
    requires open { 0 < L.parts }
    requires parts { blank.parts ≡ L.parts }
    requires name { blank.name ≡ L.name }
{
    let mut steps = Steps::<L>::new(blank);
    let config = Config::<Scratch>::begin(alloc, program, 128, &mut steps)?;
    let Some(group) = config.asked() else {
        return Err(Fail::from("quiet"));
    };
    if config.matcher().count(group) == 0 {
        return Err(Fail::from("no offer"));
    }
    match config.step(alloc, program, 0, &mut steps)? {
        Stepped::Done(_) => Err(Fail::from("no limit")),
        Stepped::Passes { limit, number, .. } => Ok((limit, number)),
    }
}

// The same of the program of a text.
fn passed(alloc: Global, text: &str) -> Result<(Limit, u64), Fail> {
    let program = accept(alloc, text.as_bytes())?.map_err(|_| "refused")?;
    first_step::<Brand>(alloc, &program, Blank::new(1))
}

// A term that is raised so many levels above `z`, and then doubled so often.
fn term(alloc: Global, levels: usize, doublings: u32) -> Result<String, AllocError> {
    let opened = "(s ".repeat(alloc, levels)?;
    let closed = ")".repeat(alloc, levels)?;
    let mut term = format!(in alloc; "{opened}z{closed}")?;
    for _doubled in 0..doublings {
        term = format!(in alloc; "(f {term} {term})")?;
    }
    Ok(term)
}

// A program of one rule, which begins with so many copies of an atom of this term.
fn text(alloc: Global, rule: &str, term: &str, copies: usize) -> Result<String, AllocError> {
    let further = "w, ".repeat(alloc, copies.saturating_sub(1))?;
    format!(in alloc;
        "t : type. z : t. s t : t. f t t : t. p t : pred.
stage main = {{ r : {rule}. }}
#trace _ main {{ {further}w }}.
context w = {{ p {term} }}
"
    )
}

// The first step by the rule passes this limit, where so many copies of an atom of this term are there.
fn expect_passed(
    rt: &impl Abort,
    alloc: Global,
    rule: &str,
    (levels, doublings, copies): (usize, u32, usize),
    limit: (Limit, u64),
) -> Result<(), Fail> {
    let term = term(alloc, levels, doublings)?;
    let text = text(alloc, rule, term.as_str(), copies)?;
    assert!(rt; passed(alloc, text.as_str())? == limit, "{rule}");
    Ok(())
}

// Of an atom its nodes are told before its levels, and of a state its copies before its nodes.
#[test]
fn limits_are_passed_by_these_numbers(rt: HostRuntime) -> Result<(), Fail> {
    let (double, raise) = ("p X -o p (f X X)", "p X -o p (s X)");
    for (rule, start, limit) in [
        (double, (0, 15, 1), (Limit::Atom, 131_072)),
        (raise, (0, 15, 1), (Limit::Atom, 65_537)),
        (double, (503, 7, 1), (Limit::Atom, 129_280)),
        (raise, (503, 7, 1), (Limit::Atom, 513)),
        (raise, (510, 0, 1), (Limit::Atom, 513)),
        ("$p X -o p X", (0, 15, 64), (Limit::State, 4_259_840)),
        ("() -o p z * p z", (0, 0, 99_999), (Limit::State, 100_001)),
    ] {
        expect_passed(&rt, rt.alloc(), rule, start, limit)?;
    }
    Ok(())
}
