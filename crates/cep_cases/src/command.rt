// The command over fakes of the outside.
ghost use Rattle.std.specs.Prelude.{◌≡◌, ◌<◌};

use cep_base::{Event, Steps};
use cep_case_texts::Draft;
use cep_fakes::{MemConsole, MemShelf};
use cep_play::ceptre;
use std::alloc::{AllocError, Global};
use std::marker::Brand;
use std::sync::ledger::{Blank, Ledger};

/// The words of a line.
pub fn words_of(alloc: Global, line: &str) -> Result<Vec<String>, AllocError> {
    let mut all = Vec::new(alloc);
    for word in line.split_whitespace() {
        all.push(String::from_str(alloc, word)?)?;
    }
    Ok(all)
}

/// Adds what was written in a talk.
pub fn put_written(talk: &[Event], out: &mut Draft) {
    for event in talk {
        if let Event::Out(byte) = event {
            out.put(&[*byte]);
        }
    }
}

// The status of the command, with a counter over a new ledger.
fn counted<L: Ledger>(
    alloc: Global,
    words: &[String],
    console: &mut MemConsole,
    shelf: &mut MemShelf,
    ledger: Blank,
) -> u8
    requires name { ledger.name ≡ L.name }
    requires parts { ledger.parts ≡ L.parts }
    requires open { 0 < L.parts }
{
    let mut steps = Steps::<L>::new(ledger);
    ceptre(alloc, words, console, shelf, &mut steps)
}

/// The status of the command with these words.
pub fn status(
    alloc: Global,
    words: &[String],
    console: &mut MemConsole,
    shelf: &mut MemShelf,
) -> u8 {
    counted::<Brand>(alloc, words, console, shelf, Blank::new(1))
}
