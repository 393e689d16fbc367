// The calls of a fake: their numbers, those that are to fail, and how many did.
ghost use Rattle.std.specs.Prelude.{◌≡◌, ◌↔◌, OnOk, OnErr, IsTrue};
ghost use Rattle.cep_base.specs.Faults.{Rose};
ghost use Rattle.cep_fakes.specs.Calls.{no_calls, FailsNext, after_listing, after_call, after_fault};

use cep_base::FaultCount;
use std::alloc::AllocError;
use std::marker::Model;

/// Counts the calls of a fake, from 1 to 2^64 - 1, and knows which of them are to fail. A call
/// after those has no number, so it is not listed.
#[derive(Drop)]
pub struct Calls {
    last: u64,
    listed: Vec<u64>,
    faults: FaultCount,
}

impl Model for Calls {
    ghost use Rattle.cep_fakes.specs.Calls.{CallLog};

    ghost Value = { CallLog };

    ghost view = { λ calls. record {
      last = calls.last;
      listed = calls.listed.items;
      faults = calls.faults;
    } };
}

impl Calls {
    /// No call yet, where the listed ones are to fail.
    pub fn new(listed: Vec<u64>) -> Calls
        ensures { result ≡ no_calls listed.items }
    {
        Calls {
            last: 0,
            listed,
            faults: FaultCount::new(),
        }
    }

    /// Lists one more call.
    pub fn list(&mut self, call: u64) -> Result<(), AllocError>
        ensures ok { OnOk result (self.new ≡ after_listing self.old call) }
        ensures err { OnErr result (self.new ≡ self.old) }
    {
        Ok(self.listed.push(call)?)
    }

    /// Counts a call, and answers whether it is to fail.
    pub fn begin(&mut self) -> bool
        ensures fails { IsTrue result ↔ FailsNext self.old }
        ensures counted { self.new ≡ after_call self.old }
    {
        let Some(number) = self.last.checked_add(1) else {
            return false;
        };
        self.last = number;
        self.listed.contains(&number)
    }

    /// Counts a failure.
    pub fn fail(&mut self)
        ensures counted { self.new ≡ after_fault self.old }
        ensures rose { Rose self.old.faults self.new.faults }
    {
        self.faults.rise();
    }
}
