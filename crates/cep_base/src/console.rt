// The console: what the program writes to, and where its player's bytes come from.
ghost use Rattle.std.specs.Prelude.{◌≡◌, ℕ, List, [], ◌∷◌, take, false, Option, None, IfOk, OnOk, OnErr, alloc_error};
ghost use Rattle.cep_base.specs.declared.console.Event.{Event};
ghost use Rattle.cep_base.specs.declared.console.ConsoleFault.TheVariants.{Memory};
ghost use Rattle.cep_base.specs.Talk.{outs, heard, GoesOn, Takes, ConsoleCause};

use std::alloc::{AllocError, AllocFailed};

/// One event of a dialogue: a byte written, a byte typed, or the end of what is typed.
#[derive(Clone, Copy, PartialEq, Eq)]
pub enum Event {
    Out(u8),
    In(u8),
    End,
}

/// Why a call of a console was refused: memory ran out, or the console itself failed.
#[derive(Clone, Copy, Debug, PartialEq, Eq)]
pub enum ConsoleFault {
    Memory(AllocError),
    Failed,
}

/// A console: an implementation writes `put` and `next`, and `is_read` if it may have no reader.
/// What it reports of itself is reported for good: no call changes whether `talk` and `left` are
/// known, so a contract may speak of them for a console that reports them, as the fakes in memory
/// do, while a terminal reports nothing.
pub trait Console {
    /// All events so far, if they are reported.
    ghost talk: { Self → Option (List Event) };

    /// The bytes still to come, if they are reported.
    ghost left: { Self → Option (List ℕ) };

    /// How often the console failed: from 0 to 2^64 - 1, and it never decreases.
    ghost faults: { Self → ℕ };

    /// Whether somebody reads what is written, as is usual. If nobody does, the talk is not
    /// reported, and what would be lost need not be made.
    fn is_read(&self) -> bool
        ensures { result ≡ false → talk self.now ≡ None }
    {
        true
    }

    /// Writes all of the bytes. A refused call wrote a prefix of them.
    fn put(&mut self, bytes: &[u8]) -> Result<(), ConsoleFault>
        ensures written { OnOk result (GoesOn (talk self.old) (outs bytes.now) (talk self.new)) }
        ensures part { OnErr result
            ((n : ℕ) × GoesOn (talk self.old) (outs (take n bytes.now)) (talk self.new)) }
        ensures left { left self.new ≡ left self.old }
        ensures cause { ConsoleCause (faults self.old) (faults self.new) result };

    /// Reads the next byte, or `None` if nothing is left. A refused call read nothing.
    fn next(&mut self) -> Result<Option<u8>, ConsoleFault>
        ensures heard { IfOk result
            (λ byte. GoesOn (talk self.old) (heard byte ∷ []) (talk self.new)) }
        ensures taken { IfOk result (λ byte. Takes (left self.old) byte (left self.new)) }
        ensures unheard { OnErr result (talk self.new ≡ talk self.old) }
        ensures untaken { OnErr result (left self.new ≡ left self.old) }
        ensures cause { ConsoleCause (faults self.old) (faults self.new) result };
}

impl From<AllocError> for ConsoleFault {
    ghost from_gives = { λ error fault. fault ≡ Memory error };

    fn from(error: AllocError) -> Self {
        ConsoleFault::Memory(error)
    }
}

impl<T: Drop> From<AllocFailed<T>> for ConsoleFault {
    ghost from_gives = { λ _ fault. fault ≡ Memory alloc_error };

    fn from(_: AllocFailed<T>) -> Self {
        ConsoleFault::Memory(AllocError)
    }
}
