ghost use Rattle.std.specs.Prelude.{ℕ, ◌<◌, List, length, Err};
ghost use Rattle.cep_base.specs.declared.limits.TheConstants.{MOST_TEXT};
ghost use Rattle.cep_ground.specs.Refusals.{IsAccepted};

use cep_refusal::{Fault, Reason, Refusal};

/// The refusal of a text that has more bytes than a text may have, for who knows no more of it than
/// that. It takes no memory.
pub fn too_long() -> Refusal
    ensures { (text : List ℕ) → MOST_TEXT < length text → IsAccepted text (Err result) }
{
    Refusal::of(
        b"",
        Fault {
            reason: Reason::TooLong,
            at: 0,
        },
    )
}
