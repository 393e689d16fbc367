// What words come to before anything is written: a report, or a dialogue that is to be held.
ghost use Rattle.std.specs.Prelude.{◌≡◌, ◌≤◌, map, string_bytes, IfOk, OnErr};
ghost use Rattle.cep_examine.specs.Exchange.{loaded};
ghost use Rattle.cep_play.specs.Answered.{AsksAtMost};
ghost use Rattle.cep_play.specs.Outcome.{IsReply};

use crate::dead_rules::report_dead_in;
use crate::examine::examine;
use crate::world::tour;
use cep_base::{Shelf, Steps};
use cep_examine::{Report, Status, program_in};
use cep_rule::Program;
use cep_words::laws::one_request;
use cep_words::{Options, Request};
use std::alloc::{AllocError, Global};
use std::sync::ledger::Ledger;

const USAGE: &[u8] =
    b"usage: play FILE [seed=N] [height=N] [turns=N] | check FILE LOG | world N [seed=N] [height=N] [turns=N] | renew FILE LOG | cause FILE LOG | again FILE LOG [seed=N] | rounds FILE players=N [seed=N] [height=N] [turns=N] | weigh FILE KEEPS | dead FILE\n";

/// What words come to.
#[derive(Drop)]
pub(crate) enum Reply {
    Report(Report),
    /// The program is to be played with the options.
    Dialogue { program: Program, options: Options },
}

/// Does all that the words ask for up to the first byte that is written.
pub(crate) fn reply_to<H: Shelf, L: Ledger>(
    alloc: Global,
    words: &[String],
    shelf: &mut H,
    steps: &mut Steps<L>,
) -> Result<Reply, AllocError>
    ensures replied { IfOk result (IsReply (map string_bytes words.now)
        (loaded H.files H.asked H.faults shelf.old shelf.new) steps.old steps.new) }
    ensures asked { OnErr result (AsksAtMost (map string_bytes words.now)
        (loaded H.files H.asked H.faults shelf.old shelf.new)) }
    ensures files { H.files shelf.new ≡ H.files shelf.old }
    ensures counted { steps.old ≤ steps.new }
{
    one_request();
    match Request::of(words) {
        Some(Request::Play { file, options }) => match program_in(alloc, file.as_str(), shelf)? {
            Ok(program) => Ok(Reply::Dialogue { program, options }),
            Err(report) => Ok(Reply::Report(report)),
        },
        Some(Request::Examine { task, file, second }) => {
            let report = examine(alloc, task, file.as_str(), second.as_str(), shelf, steps)?;
            Ok(Reply::Report(report))
        }
        Some(Request::Dead { file }) => {
            let report = report_dead_in(alloc, file.as_str(), shelf)?;
            Ok(Reply::Report(report))
        }
        Some(Request::World { rooms, options }) => {
            let report = tour(alloc, rooms, options, steps)?;
            Ok(Reply::Report(report))
        }
        None => Ok(Reply::Report(Report::line(USAGE, Status::Malformed))),
    }
}
