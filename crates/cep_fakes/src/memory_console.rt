// A console in memory of which chosen calls fail.
ghost use Rattle.std.specs.Prelude.{◌≡◌, ℕ, [], ◌∷◌, ◌++◌, take, Some, IfOk, OnOk, OnErr, IsErrOf};
ghost use Rattle.cep_base.specs.declared.console.ConsoleFault.TheVariants.{Failed};
ghost use Rattle.cep_base.specs.Talk.{outs, heard, GoesOn, Takes, ConsoleCause};
ghost use Rattle.cep_fakes.specs.Calls.{no_calls};
ghost use Rattle.cep_fakes.specs.MemConsole.{first_half, ConsoleCounts};

use crate::CalmConsole;
use crate::calls::Calls;
use cep_base::{Console, ConsoleFault, Event};
use std::alloc::{AllocError, Global};
use std::marker::Model;

/// A console in memory of which some calls of `put` and `next` fail. They are numbered together,
/// from 1 to 2^64 - 1.
#[derive(Drop)]
pub struct MemConsole {
    calm: CalmConsole,
    calls: Calls,
}

impl Model for MemConsole {
    ghost use Rattle.cep_fakes.specs.MemConsole.{NumberedDialogue};

    ghost Value = { NumberedDialogue };

    ghost view = { λ console. record {
      talk = console.calm.talk;
      left = console.calm.left;
      calls = console.calls;
    } };
}

impl MemConsole {
    /// A console on which nothing was said, these bytes are to come, and the calls with the numbers
    /// in `fails` are to fail.
    pub fn new(alloc: Global, input: &[u8], fails: &[u64]) -> Result<MemConsole, AllocError>
        ensures { IfOk result (λ console.
            console ≡ record { talk = []; left = input.now; calls = no_calls fails.now }) }
    {
        Ok(MemConsole {
            calm: CalmConsole::new(alloc, input)?,
            calls: Calls::new(Vec::from_slice(alloc, fails)?),
        })
    }

    /// All events so far.
    pub fn talk(&self) -> &[Event]
        ensures { result.now ≡ self.now.talk }
    {
        self.calm.talk()
    }
}

impl Console for MemConsole {
    ghost talk = { λ console. Some console.talk };

    ghost left = { λ console. Some console.left };

    ghost faults = { λ console. console.calls.faults };

    fn put(&mut self, bytes: &[u8]) -> Result<(), ConsoleFault>
        ensures written { OnOk result
            (GoesOn (Some self.old.talk) (outs bytes.now) (Some self.new.talk)) }
        ensures part { OnErr result
            ((n : ℕ) × GoesOn (Some self.old.talk) (outs (take n bytes.now)) (Some self.new.talk)) }
        ensures left { Some self.new.left ≡ Some self.old.left }
        ensures cause { ConsoleCause self.old.calls.faults self.new.calls.faults result }

        // What it says beside the trait: when it fails, and how much it has written then.
        ensures calls { ConsoleCounts self.old.calls self.new.calls result }
        ensures half { IsErrOf result Failed →
            self.new.talk ≡ self.old.talk ++ outs (first_half bytes.now) }
    {
        if self.calls.begin() {
            self.calm.put(&bytes[..bytes.len() / 2])?;
            self.calls.fail();
            return Err(ConsoleFault::Failed);
        }
        self.calm.put(bytes)
    }

    fn next(&mut self) -> Result<Option<u8>, ConsoleFault>
        ensures heard { IfOk result
            (λ byte. GoesOn (Some self.old.talk) (heard byte ∷ []) (Some self.new.talk)) }
        ensures taken { IfOk result (λ byte. Takes (Some self.old.left) byte (Some self.new.left)) }
        ensures unheard { OnErr result (Some self.new.talk ≡ Some self.old.talk) }
        ensures untaken { OnErr result (Some self.new.left ≡ Some self.old.left) }
        ensures cause { ConsoleCause self.old.calls.faults self.new.calls.faults result }

        // What it says beside the trait: when it fails.
        ensures calls { ConsoleCounts self.old.calls self.new.calls result }
    {
        if self.calls.begin() {
            self.calls.fail();
            return Err(ConsoleFault::Failed);
        }
        self.calm.next()
    }
}
