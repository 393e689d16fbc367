// The shelf: where the program's files are.
ghost use Rattle.std.specs.Prelude.{◌≡◌, ℕ, ◌≤◌, List, length, Option, IfOk, IsErrOf, alloc_error};
ghost use Rattle.cep_base.specs.declared.shelf.ShelfFault.TheVariants.{Memory, TooLong};
ghost use Rattle.cep_base.specs.Files.{Files, HasFile, HasLongerFile, Asks, ShelfCause};

use std::alloc::{AllocError, AllocFailed, Global};

/// Why a file was not loaded: memory ran out, the file could not be read, or it has more bytes than
/// were asked for.
#[derive(Clone, Copy, Debug, PartialEq, Eq)]
pub enum ShelfFault {
    Memory(AllocError),
    Failed,
    TooLong,
}

/// A shelf of files. As with a console, what it reports of itself is reported for good.
pub trait Shelf {
    /// The files, if they are reported. No load changes them.
    ghost files: { Self → Option Files };

    /// The names of all loads so far that did not end by out of memory, if they are reported.
    ghost asked: { Self → Option (List (List ℕ)) };

    /// How often the shelf failed: from 0 to 2^64 - 1, and it never decreases.
    ghost faults: { Self → ℕ };

    /// All bytes of a file, if they are at most `most`. `TooLong` comes only if the file has more.
    fn load(&mut self, alloc: Global, name: &str, most: usize) -> Result<Vec<u8>, ShelfFault>
        ensures whole { IfOk result (λ bytes. HasFile (files self.old) name.now bytes.items) }
        ensures within { IfOk result (λ bytes. length bytes.items ≤ most) }
        ensures longer { IsErrOf result TooLong → HasLongerFile (files self.old) name.now most }
        ensures same { files self.new ≡ files self.old }
        ensures asked { Asks (asked self.old) name.now (asked self.new) result }
        ensures cause { ShelfCause (faults self.old) (faults self.new) result };
}

impl From<AllocError> for ShelfFault {
    ghost from_gives = { λ error fault. fault ≡ Memory error };

    fn from(error: AllocError) -> Self {
        ShelfFault::Memory(error)
    }
}

impl<T: Drop> From<AllocFailed<T>> for ShelfFault {
    ghost from_gives = { λ _ fault. fault ≡ Memory alloc_error };

    fn from(_: AllocFailed<T>) -> Self {
        ShelfFault::Memory(AllocError)
    }
}
