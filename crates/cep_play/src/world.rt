// Runs a generated world, which nobody plays, and sums it up.
ghost use Rattle.std.specs.Prelude.{◌≤◌, IfOk};
ghost use Rattle.cep_base.specs.declared.limits.TheConstants.{MOST_WORLD};
ghost use Rattle.cep_words.specs.Words.{AreWithin, IsUpTo};
ghost use Rattle.cep_play.specs.Command.{settings_of};
ghost use Rattle.cep_play.specs.Outcome.{ReportsRun, ReportsTour, IsSilentRun};

use crate::play::run;
use crate::silence::Silence;
use crate::summary::put_summary;
use cep_base::limits::DEFAULT_SEED;
use cep_base::{ConsoleFault, Steps, Text};
use cep_examine::{Report, Status, program_of};
use cep_rule::Program;
use cep_run::Tally;
use cep_words::Options;
use cep_world::world_text;
use std::alloc::{AllocError, Global};
use std::sync::ledger::Ledger;

/// Plays a program with nothing typed and nothing heard, and answers what came of it.
fn run_silently<L: Ledger>(
    alloc: Global,
    program: &Program,
    options: Options,
    steps: &mut Steps<L>,
) -> Result<Tally, AllocError>
    requires { AreWithin options }
    ensures ran { IfOk result
        (IsSilentRun program.now (settings_of program.now options) steps.old steps.new) }
    ensures counted { steps.old ≤ steps.new }
{
    let mut silence = Silence;
    match run(alloc, program, options, &mut silence, steps) {
        Ok(tally) => Ok(tally),
        Err(ConsoleFault::Memory(error)) => Err(error),
        Err(ConsoleFault::Failed) => unreachable!(),
    }
}

/// The report of a run of the program of a world with nothing typed: the summary alone.
fn report_tour<L: Ledger>(
    alloc: Global,
    program: &Program,
    rooms: u32,
    options: Options,
    steps: &mut Steps<L>,
) -> Result<Report, AllocError>
    requires { AreWithin options }
    ensures reported { IfOk result (λ report.
        ReportsRun rooms options program.now steps.old steps.new report) }
    ensures counted { steps.old ≤ steps.new }
{
    let tally = run_silently(alloc, program, options, steps)?;
    let seed = options.seed.unwrap_or(DEFAULT_SEED);
    let mut lines = Text::new(alloc);
    put_summary(rooms, seed, tally, &mut lines)?;
    Ok(Report::text(lines, Status::of_run(tally.word)))
}

/// The report of a run of the world of so many rooms.
pub(crate) fn tour<L: Ledger>(
    alloc: Global,
    rooms: u32,
    options: Options,
    steps: &mut Steps<L>,
) -> Result<Report, AllocError>
    requires rooms { IsUpTo MOST_WORLD rooms }
    requires within { AreWithin options }
    ensures reported { IfOk result (λ report.
        ReportsTour rooms options steps.old steps.new report) }
    ensures counted { steps.old ≤ steps.new }
{
    let text = world_text(alloc, rooms)?;
    match program_of(alloc, text.bytes())? {
        Ok(program) => report_tour(alloc, &program, rooms, options, steps),
        Err(report) => Ok(report),
    }
}
