ghost use Rattle.std.specs.Prelude.{◌≡◌};
ghost use Rattle.cep_refusal.specs.First.{first_of, is_no_later};

use crate::reason::Reason;

/// What is wrong with a text at a place, in bytes from the front of the text.
#[derive(Clone, Copy, PartialEq, Eq)]
pub struct Fault {
    pub reason: Reason,
    pub at: u32,
}

impl Fault {
    /// Whether the fault stands at an earlier place than the other, or at the same place with no
    /// greater number. This order is this profile's.
    pub fn is_no_later(self, other: Fault) -> bool
        ensures { result ≡ is_no_later self other }
    {
        self.at < other.at || self.at == other.at && self.reason.number() <= other.reason.number()
    }

    /// The first of two faults, of which there may be one or none.
    pub fn first_of(one: Option<Fault>, other: Option<Fault>) -> Option<Fault>
        ensures { result ≡ first_of one other }
    {
        match (one, other) {
            (Some(one), Some(other)) if !one.is_no_later(other) => Some(other),
            (Some(one), _) => Some(one),
            (None, other) => other,
        }
    }
}
