//! One choice of the player: lines are read until one of them chooses.
ghost use Rattle.std.specs.Prelude.{◌<◌, ◌≤◌, IfOk, OnErr};
ghost use Rattle.cep_base.specs.Talk.{Did, ConsoleCause};
ghost use Rattle.cep_run.specs.Choice.{IsChoiceWithin, Hears};
ghost use Rattle.cep_run.specs.Fronts.{FellShort};
ghost use Rattle.cep_run.specs.Begun.{HearsSome};

use cep_base::limits::MOST_TYPED;
use cep_base::{Console, ConsoleFault};
use cep_choice::{Said, read_choice};

/// What came of a choice.
#[derive(Clone, Copy)]
pub enum Choice {
    /// The offer at this place was chosen, counted from 1.
    Place(u32),
    /// The input ended.
    NoMore,
    /// No more bytes may be taken.
    NoRoom,
}

/// Reads lines until one chooses a place among `n`. `taken` is the number of bytes of the run. A
/// refused call heard a prefix of some choice.
pub fn choose<C: Console>(console: &mut C, n: u32, taken: &mut u64) -> Result<Choice, ConsoleFault>
    requires { taken.old ≤ MOST_TYPED }
    ensures heard { IfOk result (λ choice.
        Did C.talk C.left console.old console.new (λ come events rest.
        Hears n come taken.old events choice rest taken.new)) }
    ensures begun { OnErr result (FellShort C.talk C.left console.old console.new (λ come. come)
        (HearsSome n taken.old)) }
    ensures place { IfOk result (λ choice. IsChoiceWithin n choice) }
    ensures within { taken.new ≤ MOST_TYPED }
    ensures cause { ConsoleCause (C.faults console.old) (C.faults console.new) result }
{
    loop {
        let heard = read_choice(console, n, MOST_TYPED - *taken)?;
        *taken += heard.taken;
        match heard.said {
            Said::Number(place) => return Ok(Choice::Place(place)),
            Said::End => return Ok(Choice::NoMore),
            Said::Limit => return Ok(Choice::NoRoom),
            Said::Bad => console.put(b"? no\n")?,
        }
    }
}
