//! Writes the lines of a transcript at the end of a text: those of its start, of a listing and of its end.
ghost use Rattle.std.specs.Prelude.{◌≡◌, ◌<◌, ◌++◌, length, OnOk, OnErr};
ghost use Rattle.cep_term.specs.Tree.{atom_of};
ghost use Rattle.cep_rule.specs.State.{IsState};
ghost use Rattle.cep_text.specs.Texts.{IsTypedGround};
ghost use Rattle.cep_text.specs.Writing.{IsBegun};
ghost use Rattle.cep_lines.specs.Lines.{have_line, listing, stage_line, mid_lines, end_lines, header};

use crate::end_word::EndWord;
use cep_base::Text;
use cep_rule::Program;
use cep_term::laws::bags_are_lawful;
use cep_term::{Atom, Bag};
use cep_text::put_atom;
use std::alloc::AllocError;

/// The first three lines, of version 2, and the listing of the program's start state. The height is 1 to 512
/// where the transcript is to be read again. After `AllocError` a prefix of the lines was added, as
/// with every writer here.
pub fn put_start(program: &Program, height: u32, out: &mut Text) -> Result<(), AllocError>
    ensures ok { OnOk result (out.new ≡ out.old ++ header program.now height) }
    ensures err { OnErr result (IsBegun out.old (header program.now height) out.new) }
{
    out.append(b"ceptre 2\nheight ")?;
    out.number(u64::from(height))?;
    out.append(b"\n")?;
    let parts = program.parts();
    put_stage(program, parts.start_stage, out)?;
    put_listing(program, &parts.start, out)
}

/// The line of an atom in a listing, with the number of its copies.
#[tactic(auto, using(std::proofs::Common::append_assoc), unfolding(crate::specs::Lines::have_line))]
pub fn put_have(
    program: &Program,
    count: u32,
    atom: &Atom,
    out: &mut Text,
) -> Result<(), AllocError>
    requires { IsTypedGround program.now.signature (atom_of atom.now) }
    ensures ok { OnOk result (out.new
        ≡ out.old ++ have_line program.now.signature (atom_of atom.now, count)) }
    ensures err { OnErr result (IsBegun out.old
        (have_line program.now.signature (atom_of atom.now, count)) out.new) }
{
    out.append(b"have ")?;
    out.number(u64::from(count))?;
    out.append(b" ")?;
    put_atom(program, atom, out)?;
    out.append(b"\n")
}

fn put_listing(program: &Program, state: &Bag, out: &mut Text) -> Result<(), AllocError>
    requires { IsState program.now.signature state.now }
    ensures ok { OnOk result (out.new ≡ out.old ++ listing program.now.signature state.now) }
    ensures err { OnErr result (IsBegun out.old (listing program.now.signature state.now) out.new) }
{
    bags_are_lawful();
    for i in 0..state.len() {
        let (atom, copies) = state.entry(i);
        put_have(program, copies, atom, out)?;
    }
    Ok(())
}

/// The line of a stage, by its number.
#[tactic(auto, using(std::proofs::Common::append_assoc), unfolding(crate::specs::Lines::stage_line))]
pub fn put_stage(program: &Program, stage: u32, out: &mut Text) -> Result<(), AllocError>
    requires { stage < length program.now.stages }
    ensures ok { OnOk result (out.new ≡ out.old ++ stage_line program.now stage) }
    ensures err { OnErr result (IsBegun out.old (stage_line program.now stage) out.new) }
{
    let stages = &program.parts().stages;
    out.append(b"stage ")?;
    out.append(stages.get(stage as usize).name.bytes())?;
    out.append(b"\n")
}

/// The line before the listing of the state after a step, with the step's number, counted from 1, and
/// that listing. Each count is at most 100,000 where the transcript is to be read again.
#[tactic(auto, using(std::proofs::Common::append_assoc), unfolding(crate::specs::Lines::mid_lines))]
pub fn put_mid(program: &Program, step: u32, state: &Bag, out: &mut Text) -> Result<(), AllocError>
    requires { IsState program.now.signature state.now }
    ensures ok { OnOk result (out.new ≡ out.old ++ mid_lines program.now.signature step state.now) }
    ensures err { OnErr result (IsBegun out.old
        (mid_lines program.now.signature step state.now) out.new) }
{
    out.append(b"state ")?;
    out.number(u64::from(step))?;
    out.append(b"\n")?;
    put_listing(program, state, out)
}

/// The line of the end, and the listing of the last state.
#[tactic(auto, using(std::proofs::Common::append_assoc), unfolding(crate::specs::Lines::end_lines))]
pub fn put_end(
    program: &Program,
    word: EndWord,
    state: &Bag,
    out: &mut Text,
) -> Result<(), AllocError>
    requires { IsState program.now.signature state.now }
    ensures ok { OnOk result (out.new ≡ out.old ++ end_lines program.now.signature word state.now) }
    ensures err { OnErr result (IsBegun out.old
        (end_lines program.now.signature word state.now) out.new) }
{
    out.append(b"end ")?;
    out.append(word.text())?;
    out.append(b"\n")?;
    put_listing(program, state, out)
}
