//! Runs `ceptre` on the cases of its folder `data`, over fakes of console and shelf, and writes what came of each.
#![tactic(auto)]

mod command;
mod player;

use player::Player;
use std::fs;
use std::rt::Files;

/// Runs the cases of the file that a line of the index names, and writes what came of them. After the name stands the most bytes of an
/// output that is written out.
///
/// # Errors
///
/// The file is not read, what came of it is not written, or a case says nothing: then what came of those before it was written.
fn run_file<R: Files + Print + AllocGlobal>(
    rt: &R,
    player: &mut Player,
    line: &str,
) -> Result<(), &'static str> {
    let (name, most) = line.split_once(' ').unwrap_or((line, ""));
    match fs::read_to_string(rt, name) {
        Ok(content) => player.run_file(content.as_str(), most),
        Err(_) => return Err("a file of cases is not read"),
    }
    if rt.write_all(player.told().bytes()).is_err() {
        return Err("what came of the cases is not written");
    }
    match player.told().fault() {
        Some(why) => Err(why),
        None => Ok(()),
    }
}

/// Runs the cases of the files that the index names.
fn run_files<R: Files + Print + AllocGlobal>(
    rt: &R,
    player: &mut Player,
) -> Result<(), &'static str> {
    let Ok(index) = fs::read_to_string(rt, "index") else {
        return Err("the index is not read");
    };
    for line in index.lines() {
        run_file(rt, player, line)?;
    }
    Ok(())
}

fn main(rt: HostRuntime) -> Result<(), &'static str> {
    let mut player = Player::new(rt.alloc());
    run_files(&rt, &mut player)
}
