// Writes which rules are dead.
ghost use Rattle.std.specs.Prelude.{◌≡◌, ◌++◌, slice_get, OnOk};
ghost use Rattle.std.specs.List.{flat_map};
ghost use Rattle.cep_lines.specs.Lines.{stage_name};
ghost use Rattle.cep_report.specs.DeadLines.{variable_name, why_text, dead_line, dead_lines};

use crate::names::rule_name;
use cep_base::{List, Text};
use cep_dead::{DeadRule, DeadWhy};
use cep_rule::Program;
use std::alloc::AllocError;

// The name of a stage.
fn name_of_stage(program: &Program, stage: u32) -> &[u8]
    ensures { result.now ≡ stage_name (slice_get program.now.stages stage) }
{
    match program.parts().stages.as_slice().get(stage as usize) {
        Some(stage) => stage.name.bytes(),
        None => b"",
    }
}

// The name of a variable of a rule.
fn name_of_variable(program: &Program, rule: u32, variable: u32) -> &[u8]
    ensures { result.now ≡ variable_name (slice_get program.now.rules rule) variable }
{
    match program.parts().rules.as_slice().get(rule as usize) {
        Some(rule) => match rule.vars.as_slice().get(variable as usize) {
            Some(name) => name.bytes(),
            None => b"",
        },
        None => b"",
    }
}

// Why a rule is dead.
fn put_why(program: &Program, dead: DeadRule, out: &mut Text) -> Result<(), AllocError>
    ensures { OnOk result (out.new
        ≡ out.old ++ why_text program.now (slice_get program.now.rules dead.rule) dead.why) }
{
    match dead.why {
        DeadWhy::Stage(stage) => {
            out.append(b"stage ")?;
            out.append(name_of_stage(program, stage))
        }
        DeadWhy::Premise(place) => {
            out.append(b"premise ")?;
            out.number(u64::from(place))
        }
        DeadWhy::Var(variable) => {
            out.append(b"var ")?;
            out.append(name_of_variable(program, dead.rule, variable))
        }
    }
}

// The line of a dead rule.
#[tactic(auto, using(std::proofs::Common::append_assoc))]
fn put_dead(program: &Program, dead: DeadRule, out: &mut Text) -> Result<(), AllocError>
    ensures { OnOk result (out.new ≡ out.old ++ dead_line program.now dead) }
{
    out.append(b"dead ")?;
    out.append(rule_name(program, dead.rule))?;
    out.append(b" ")?;
    put_why(program, dead, out)?;
    out.append(b"\n")
}

// The lines of dead rules.
fn put_each(program: &Program, deads: &[DeadRule], out: &mut Text) -> Result<(), AllocError>
    ensures { OnOk result (out.new ≡ out.old ++ flat_map (dead_line program.now) deads.now) }
{
    for dead in deads {
        put_dead(program, *dead, out)?;
    }
    Ok(())
}

/// The lines of dead rules: `dead RULE WHY` for each, and last how many they are. This form is the
/// profile's.
///
/// # Errors
///
/// Out of memory alone.
#[tactic(auto, using(std::proofs::Common::append_assoc))]
pub fn put_deads(
    program: &Program,
    deads: &List<DeadRule>,
    out: &mut Text,
) -> Result<(), AllocError>
    ensures { OnOk result (out.new ≡ out.old ++ dead_lines program.now deads.now) }
{
    put_each(program, deads.as_slice(), out)?;
    out.append(b"dead ")?;
    out.number(deads.len() as u64)?;
    out.append(b"\n")
}
