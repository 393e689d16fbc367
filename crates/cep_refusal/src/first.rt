ghost use Rattle.std.specs.Prelude.{◌≡◌, None};
ghost use Rattle.cep_refusal.specs.First.{first_of};

use crate::fault::Fault;
use std::marker::Model;

/// The first of the faults that were noted so far.
#[derive(Drop)]
pub struct FirstFault {
    fault: Option<Fault>,
}

impl Model for FirstFault {
    ghost use Rattle.std.specs.Prelude.{Option};
    ghost use Rattle.cep_refusal.specs.declared.fault.Fault.{Fault};

    ghost Value = { Option Fault };

    ghost view = { λ first. first.fault };
}

impl FirstFault {
    /// No fault yet.
    pub fn none() -> FirstFault
        ensures { result ≡ None }
    {
        FirstFault { fault: None }
    }

    /// Notes a further fault, if there is one.
    pub fn note(&mut self, fault: Option<Fault>)
        ensures { self.new ≡ first_of self.old fault }
    {
        self.fault = Fault::first_of(self.fault, fault);
    }

    /// The first of all that were noted.
    pub fn found(self) -> Option<Fault>
        ensures { result ≡ self }
    {
        self.fault
    }
}
