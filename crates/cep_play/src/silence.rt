// A console for a run that nobody hears.
use cep_base::{Console, ConsoleFault};

/// A console on which nothing is typed, and whatever is written is lost.
#[derive(Drop)]
pub(crate) struct Silence;

impl Console for Silence {
    ghost use Rattle.std.specs.Prelude.{[], None, Some};

    ghost talk = { λ _. None };

    ghost left = { λ _. Some [] };

    ghost faults = { λ _. 0 };

    fn is_read(&self) -> bool {
        false
    }

    fn put(&mut self, _bytes: &[u8]) -> Result<(), ConsoleFault> {
        Ok(())
    }

    fn next(&mut self) -> Result<Option<u8>, ConsoleFault> {
        Ok(None)
    }
}
