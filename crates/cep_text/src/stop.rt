ghost use Rattle.std.specs.Prelude.{◌≡◌};
ghost use Rattle.cep_text.specs.declared.stop.Stop.TheVariants.{Memory};

use std::alloc::{AllocError, AllocFailed};

// Why nothing was read: memory ran out, or the bytes are the text of nothing that is read here.
#[derive(Clone, Copy, PartialEq, Eq)]
pub(crate) enum Stop {
    Memory(AllocError),
    Unread,
}

impl From<AllocError> for Stop {
    ghost from_gives = { λ error stop. stop ≡ Memory error };

    fn from(error: AllocError) -> Self {
        Stop::Memory(error)
    }
}

impl<T: Drop> From<AllocFailed<T>> for Stop {
    ghost use Rattle.std.specs.Prelude.{alloc_error};

    ghost from_gives = { λ _ stop. stop ≡ Memory alloc_error };

    fn from(_failed: AllocFailed<T>) -> Self {
        Stop::Memory(AllocError)
    }
}
