//! The law of what is due. The function computes nothing, and its contract is the law.
ghost use Rattle.std.specs.Prelude.{◌≡◌, ℕ, List, Some};
ghost use Rattle.cep_base.specs.Files.{Files};
ghost use Rattle.cep_play.specs.Outside.{Due};
ghost use Rattle.cep_play.specs.Due.{IsDue};

use cep_examine::laws::one_status;
use cep_ground::laws::clean_parts_are_a_program;
use cep_words::laws::one_request;

/// Where the shelf tells its files, what is due of words is one but for what is written: one
/// status, one rest of what is to be typed, and the same names are asked. A dialogue that is due
/// says by itself how far it is one.
pub fn one_due()
    ensures { (words : List (List ℕ)) (files : Files) (come : List ℕ) (one other : Due)
        → IsDue words (record { files = Some files; come = come }) one
        → IsDue words (record { files = Some files; come = come }) other
        → (one.code ≡ other.code) × (one.rest ≡ other.rest) × (one.names ≡ other.names) }
{
    one_request();
    clean_parts_are_a_program();
    one_status();
}
