ghost use Rattle.std.specs.Prelude.{◌≡◌, ◌≤◌, ◌++◌, codes, OnOk, IfOk};
ghost use Rattle.std.specs.List.{join_by};
ghost use Rattle.cep_world.specs.World.{numbered_names, walker_count, world_atoms, rule_lines, world};

use crate::pieces::{put_atom, put_goods, put_names, put_rooms, put_walkers};
use cep_base::Text;
use cep_base::limits::MOST_WORLD;
use std::alloc::{AllocError, Global};

// The lines of the names.
#[tactic(auto, using(std::proofs::Common::append_assoc))]
fn put_all_names(out: &mut Text, n: u32) -> Result<(), AllocError>
    ensures { OnOk result (out.new
        ≡ out.old ++ (numbered_names (codes "r") (codes "room") n
        ++ numbered_names (codes "w") (codes "walker") (walker_count n)
        ++ numbered_names (codes "g") (codes "good") n)) }
{
    put_names(out, b"r", b"room", n)?;
    put_names(out, b"w", b"walker", 1 + n / 100)?;
    put_names(out, b"g", b"good", n)
}

// The lines of the predicates, the stages and the rules.
fn put_rules(out: &mut Text) -> Result<(), AllocError>
    ensures { OnOk result (out.new ≡ out.old ++ rule_lines) }
{
    out.append(
        b"link room room : pred.
at walker room : pred.
lies good room : pred.
holds walker good : pred.
food walker : pred.
stage main = {
move : at W R * $link R S * food W -o at W S.
grab : $at W R * lies G R -o holds W G.
}
stage rest = {
eat : holds W G -o food W * food W.
}
qui * stage main -o stage rest.
qui * stage rest * $food W -o stage main.
context start = {
",
    )
}

// The start state's atoms.
fn put_start(out: &mut Text, n: u32) -> Result<(), AllocError>
    requires some { 1 ≤ n }
    requires few { n ≤ MOST_WORLD }
    ensures { OnOk result (out.new
        ≡ out.old ++ join_by (λ atom. atom) (codes ",\n") (world_atoms n)) }
{
    put_rooms(out, n)?;
    put_walkers(out, n, 1 + n / 100)?;
    put_goods(out, n, n - 1)?;
    put_atom(out, b"lies g", n - 1, 5 * (n - 1) % n)
}

/// The text of the world of so many rooms, at least one and at most `MOST_WORLD`: a program in
/// which walkers go along links, take goods and eat. Only out of memory is refused. Worlds are this
/// project's own.
pub fn world_text(alloc: Global, n: u32) -> Result<Text, AllocError>
    requires some { 1 ≤ n }
    requires few { n ≤ MOST_WORLD }
    ensures { IfOk result (λ text. text ≡ world n) }
{
    let mut out = Text::new(alloc);
    out.append(b"room : type.\nwalker : type.\ngood : type.\n")?;
    put_all_names(&mut out, n)?;
    put_rules(&mut out)?;
    put_start(&mut out, n)?;
    out.append(b"\n}.\n#trace _ main start.\n")?;
    Ok(out)
}
