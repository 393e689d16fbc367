// One typed line, read from a console byte by byte.
ghost use Rattle.std.specs.Prelude.{◌≡◌, ℕ, ◌<◌, ◌≤◌, IfOk, OnErr};
ghost use Rattle.cep_base.specs.Talk.{Did, ConsoleCause};
ghost use Rattle.cep_choice.specs.declared.reading.Said.{Said};
ghost use Rattle.cep_choice.specs.TypedLine.{Cut, ReadsLine, IsHeardAs, IsTakenFor, IsPlaceWithin, IsCutShort};

use crate::typed::Typed;
use cep_base::{Console, ConsoleFault};

/// What one typed line says of a choice.
#[derive(Clone, Copy)]
pub enum Said {
    /// The line chooses this place, counted from 1.
    Number(u32),
    /// The line chooses nothing.
    Bad,
    /// The input ended before any byte.
    End,
    /// No more bytes may be taken.
    Limit,
}

/// What one reading of a line heard, and how many bytes it took.
#[derive(Clone, Copy)]
pub struct Heard {
    pub said: Said,
    pub taken: u64,
}

/// Reads one line, of at most `room` bytes, and says which place among `n` it chooses. A refused
/// call took some bytes of the line.
pub fn read_choice<C: Console>(console: &mut C, n: u32, room: u64) -> Result<Heard, ConsoleFault>
    ensures line { IfOk result (λ heard.
        Did C.talk C.left console.old console.new (λ come events rest.
        (cut : Cut) × ReadsLine room come events cut rest heard.taken
        × IsHeardAs n cut heard.said)) }
    ensures cut_short { OnErr result (Did C.talk C.left console.old console.new (IsCutShort room)) }
    ensures within { IfOk result (λ heard. heard.taken ≤ room) }
    ensures taken { IfOk result (λ heard. IsTakenFor room heard.said heard.taken) }
    ensures place { IfOk result (λ heard. IsPlaceWithin n heard.said) }
    ensures cause { ConsoleCause (C.faults console.old) (C.faults console.new) result }
{
    let mut typed = Typed::Empty;
    for taken in 0..room {
        match console.next()? {
            Some(b'\n') => return Ok(Heard {
                said: typed.said(),
                taken: taken + 1,
            }),
            Some(byte) => typed = typed.then(n, byte),
            None if taken == 0 => return Ok(Heard {
                said: Said::End,
                taken,
            }),
            None => return Ok(Heard {
                said: typed.said(),
                taken,
            }),
        }
    }
    Ok(Heard {
        said: Said::Limit,
        taken: room,
    })
}
