//! `ceptre`: plays Ceptre programs at the terminal.
#![tactic(auto)]

ghost use Rattle.std.specs.Prelude.{◌≡◌, ◌<◌};

use cep_base::Steps;
use cep_host::{FileShelf, StdConsole};
use cep_play::ceptre;
use std::io::ErrorKind;
use std::marker::Brand;
use std::process::ExitCode;
use std::rt::{Env, Files};
use std::sync::ledger::{Blank, Ledger};
use std::{env, io};

/// The status where memory ran out before the call.
const NO_MEMORY: u8 = 9;

/// The words after the program's own name. There are none where one of them is no text.
fn words<R: Env + AllocGlobal>(rt: &R) -> Result<Vec<String>, io::Error> {
    let mut words = Vec::new(rt.alloc());
    match env::args(rt) {
        Ok(all) => {
            for word in all.skip(1) {
                words.push(word)?;
            }
            Ok(words)
        }
        Err(error) if error.kind() == ErrorKind::OutOfMemory => Err(error),
        Err(_) => Ok(words),
    }
}

/// Makes the console, the shelf and the counter, and does what the words ask for.
fn run<R: Input + Print + Files + Env + AllocGlobal, L: Ledger>(rt: &R, ledger: Blank) -> u8
    requires name { ledger.name ≡ L.name }
    requires parts { ledger.parts ≡ L.parts }
    requires open { 0 < L.parts }
{
    let alloc = rt.alloc();
    let mut steps = Steps::<L>::new(ledger);
    let Ok(words) = words(rt) else {
        return NO_MEMORY;
    };
    let Ok(mut console) = StdConsole::new(alloc, rt) else {
        return NO_MEMORY;
    };
    let mut shelf = FileShelf::new(rt);
    ceptre(alloc, &words, &mut console, &mut shelf, &mut steps)
}

fn main(rt: HostRuntime) -> ExitCode {
    ExitCode::from(run::<HostRuntime, Brand>(&rt, Blank::new(1)))
}
