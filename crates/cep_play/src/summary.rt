// The lines that sum up the run of a generated world.
ghost use Rattle.std.specs.Prelude.{◌≡◌, ◌++◌, codes, OnOk};
ghost use Rattle.cep_lines.specs.Lines.{line, ending_word};
ghost use Rattle.cep_play.specs.World.{count_line, summary};

use cep_base::Text;
use cep_lines::EndWord;
use cep_run::Tally;
use std::alloc::AllocError;

// The line of a count, as `turns 10`.
#[tactic(auto, using(std::proofs::Common::append_assoc))]
fn put_count(out: &mut Text, name: &[u8], count: u64) -> Result<(), AllocError>
    ensures { OnOk result (out.new ≡ out.old ++ count_line name.now count) }
{
    out.append(name)?;
    out.append(b" ")?;
    out.number(count)?;
    out.append(b"\n")
}

// The line of the word with which a run ended.
#[tactic(auto, using(std::proofs::Common::append_assoc))]
fn put_word(out: &mut Text, word: EndWord) -> Result<(), AllocError>
    ensures { OnOk result (out.new ≡ out.old ++ line (codes "end " ++ ending_word word)) }
{
    out.append(b"end ")?;
    out.append(word.text())?;
    out.append(b"\n")
}

// The lines that sum up the run of the world of so many rooms with a seed.
#[tactic(auto, using(std::proofs::Common::append_assoc), unfolding(crate::specs::World::summary))]
pub(crate) fn put_summary(
    rooms: u32,
    seed: u64,
    tally: Tally,
    out: &mut Text,
) -> Result<(), AllocError>
    ensures { OnOk result (out.new ≡ out.old ++ summary rooms seed tally) }
{
    put_count(out, b"world", u64::from(rooms))?;
    put_count(out, b"seed", seed)?;
    put_count(out, b"turns", u64::from(tally.turns))?;
    put_count(out, b"offers", tally.offers)?;
    put_count(out, b"copies", tally.copies)?;
    put_word(out, tally.word)
}
