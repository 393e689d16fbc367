// A console in memory that never fails.
ghost use Rattle.std.specs.Prelude.{◌≡◌, [], IfOk};

use cep_base::{Console, ConsoleFault, Event};
use std::alloc::{AllocError, Global};
use std::marker::Model;

/// A console in memory that never fails: it keeps all events, and is typed the bytes that it was
/// made with.
#[derive(Drop)]
pub struct CalmConsole {
    events: Vec<Event>,
    input: Vec<u8>,
    taken: usize,
}

impl Model for CalmConsole {
    ghost use Rattle.std.specs.Prelude.{drop};
    ghost use Rattle.cep_fakes.specs.CalmConsole.{Conversation};

    ghost Value = { Conversation };

    ghost view = { λ console. record {
      talk = console.events.items;
      left = drop console.taken console.input.items;
    } };
}

impl CalmConsole {
    /// A console on which nothing was said, and these bytes are to come.
    pub fn new(alloc: Global, input: &[u8]) -> Result<CalmConsole, AllocError>
        ensures { IfOk result (λ console. console ≡ record { talk = []; left = input.now }) }
    {
        Ok(CalmConsole {
            events: Vec::new(alloc),
            input: Vec::from_slice(alloc, input)?,
            taken: 0,
        })
    }

    /// All events so far.
    pub fn talk(&self) -> &[Event]
        ensures { result.now ≡ self.now.talk }
    {
        &self.events
    }
}

impl Console for CalmConsole {
    ghost use Rattle.std.specs.Prelude.{Some};

    ghost talk = { λ console. Some console.talk };

    ghost left = { λ console. Some console.left };

    ghost faults = { λ _. 0 };

    fn put(&mut self, bytes: &[u8]) -> Result<(), ConsoleFault> {
        for &byte in bytes {
            self.events.push(Event::Out(byte))?;
        }
        Ok(())
    }

    fn next(&mut self) -> Result<Option<u8>, ConsoleFault> {
        match self.input.get(self.taken) {
            Some(&byte) => {
                self.events.push(Event::In(byte))?;
                self.taken += 1;
                Ok(Some(byte))
            }
            None => {
                self.events.push(Event::End)?;
                Ok(None)
            }
        }
    }
}
