// Writes the graph of a transcript.
ghost use Rattle.std.specs.Prelude.{◌≡◌, ℕ, ◌++◌, OnOk};
ghost use Rattle.std.specs.List.{flat_map};
ghost use Rattle.cep_report.specs.CauseLines.{barrier_text, number_text, after_text, graph_line, graph_lines};

use cep_base::Text;
use cep_order::StepCause;
use std::alloc::AllocError;

// A number of a step, after a space.
fn put_number(number: u32, out: &mut Text) -> Result<(), AllocError>
    ensures { OnOk result (out.new ≡ out.old ++ number_text number) }
{
    out.append(b" ")?;
    out.number(u64::from(number))
}

// Numbers of steps.
fn put_numbers(numbers: &[u32], out: &mut Text) -> Result<(), AllocError>
    ensures { OnOk result (out.new ≡ out.old ++ flat_map number_text numbers.now) }
{
    for number in numbers {
        put_number(*number, out)?;
    }
    Ok(())
}

// The steps on which a step rests, if there are any.
#[tactic(auto, using(std::proofs::Common::append_assoc))]
fn put_after(numbers: &[u32], out: &mut Text) -> Result<(), AllocError>
    ensures { OnOk result (out.new ≡ out.old ++ after_text numbers.now) }
{
    match numbers {
        [] => Ok(()),
        [_, ..] => {
            out.append(b" after")?;
            put_numbers(numbers, out)
        }
    }
}

// That a step is a barrier, if it is one.
fn put_barrier(barrier: bool, out: &mut Text) -> Result<(), AllocError>
    ensures { OnOk result (out.new ≡ out.old ++ barrier_text barrier) }
{
    if barrier { out.append(b" all") } else { Ok(()) }
}

// The line of the step of a number.
#[tactic(auto, using(std::proofs::Common::append_assoc))]
fn put_cause(number: usize, cause: &StepCause, out: &mut Text) -> Result<(), AllocError>
    ensures { OnOk result (out.new ≡ out.old ++ graph_line number cause.now) }
{
    out.append(b"step ")?;
    out.number(number as u64)?;
    put_barrier(cause.barrier, out)?;
    put_after(cause.after.as_slice(), out)?;
    out.append(b"\n")
}

/// The lines of a graph: `step K` for each step, then ` all` if it is a barrier, then, if it rests on
/// earlier steps, ` after` and their numbers, each after a space. This form is the profile's.
///
/// # Errors
///
/// Out of memory alone.
pub fn put_causes(causes: &[StepCause], out: &mut Text) -> Result<(), AllocError>
    ensures { OnOk result (out.new ≡ out.old ++ graph_lines 1 causes.now) }
{
    let mut number = 0;
    for cause in causes {
        number += 1;
        put_cause(number, cause, out)?;
    }
    Ok(())
}
