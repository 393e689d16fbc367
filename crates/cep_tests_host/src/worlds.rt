// The texts of generated worlds.
use cep_base::limits::MOST_WORLD;
use cep_world::world_text;
use std::process::Abort;
use std::test::Fail;

// The world of one room.
fn smallest() -> &'static str {
    "\
room : type.
walker : type.
good : type.
r0 : room.
w0 : walker.
g0 : good.
link room room : pred.
at walker room : pred.
lies good room : pred.
holds walker good : pred.
food walker : pred.
stage main = {
move : at W R * $link R S * food W -o at W S.
grab : $at W R * lies G R -o holds W G.
}
stage rest = {
eat : holds W G -o food W * food W.
}
qui * stage main -o stage rest.
qui * stage rest * $food W -o stage main.
context start = {
link r0 r0,
link r0 r0,
at w0 r0,
food w0,
food w0,
food w0,
lies g0 r0
}.
#trace _ main start.
"
}

// Lines that follow one another in the world of 101 rooms.
fn following_lines() -> &'static str {
    "\
w0 : walker.
w1 : walker.
=
w1 : walker.
g0 : good.
=
g100 : good.
link room room : pred.
=
link r0 r1,
link r0 r3,
=
link r100 r0,
link r100 r97,
=
link r100 r97,
at w0 r0,
=
food w0,
at w1 r11,
=
food w1,
lies g0 r0,
=
lies g20 r100,
lies g21 r4,
=
lies g100 r96
}."
}

// All these lines stand in a text.
fn expect_lines(rt: &impl Abort, text: &str) {
    for lines in following_lines().split("=\n") {
        assert!(rt; text.contains(lines), "{lines}");
    }
}

#[test]
fn the_smallest_world_has_this_text(rt: HostRuntime) -> Result<(), Fail> {
    let text = world_text(rt.alloc(), 1)?;
    assert!(rt; text.bytes() == smallest().as_bytes());
    Ok(())
}

#[test]
fn a_world_of_101_rooms_has_these_lines(rt: HostRuntime) -> Result<(), Fail> {
    let text = world_text(rt.alloc(), 101)?;
    expect_lines(&rt, str::from_utf8(text.bytes()).ok().ok_or("no text")?);
    Ok(())
}

#[test]
fn the_largest_world_fits_a_text(rt: HostRuntime) -> Result<(), Fail> {
    let text = world_text(rt.alloc(), MOST_WORLD)?;
    assert!(rt; text.bytes().len() < 600_000);
    Ok(())
}
