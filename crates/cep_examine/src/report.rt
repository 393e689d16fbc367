// Reports: what is written at once, with nothing read, and the status that goes with it.
ghost use Rattle.std.specs.Prelude.{◌≡◌, OnErr, IfOk};
ghost use Rattle.cep_base.specs.Talk.{ConsoleCause};
ghost use Rattle.cep_examine.specs.Exchange.{talked, Wrote, WrotePrefix};
ghost use Rattle.cep_examine.specs.Report.{code_of, code_told, bytes_of};

use cep_base::{Console, ConsoleFault, Text};
use cep_lines::EndWord;
use std::marker::Model;

/// How a command came out.
#[derive(Clone, Copy)]
pub enum Status {
    /// The run ended in quiet or at the end of the input, or the transcript is accepted or renewed,
    /// or all of what was asked is reported.
    Done,
    /// The transcript is not accepted, or its new text is too long.
    Rejected,
    /// The words are malformed.
    Malformed,
    /// The program's text is refused.
    Refused,
    /// The run ended by a limit.
    Limited,
    /// Some claim is broken.
    Broken,
    /// A step of another order leads to a state that does not fit.
    Unfit,
    /// A file could not be read.
    Unread,
}

impl Status {
    /// The status of a run that ended with this word: whether a limit ended it.
    pub fn of_run(word: EndWord) -> Status
        ensures { code_of result ≡ code_told word }
    {
        match word {
            EndWord::Quiet | EndWord::Input => Status::Done,
            EndWord::Turns | EndWord::Offers | EndWord::Typed | EndWord::Atom | EndWord::State =>
                Status::Limited,
        }
    }

    /// The number with which the process ends.
    pub fn code(self) -> u8
        ensures { result ≡ code_of self }
    {
        match self {
            Status::Done => 0,
            Status::Rejected => 1,
            Status::Malformed => 2,
            Status::Refused => 3,
            Status::Limited => 4,
            Status::Broken => 5,
            Status::Unfit => 5,
            Status::Unread => 7,
        }
    }
}

// What is written.
#[derive(Drop)]
enum Lines {
    /// A line that is always the same, so that it needs no memory.
    Fixed(&'static [u8]),
    Text(Text),
}

impl Lines {
    fn bytes(&self) -> &[u8]
        ensures { result.now ≡ bytes_of self.now }
    {
        match self {
            Lines::Fixed(line) => line,
            Lines::Text(text) => text.bytes(),
        }
    }
}

/// A report: what is written at once, with nothing read, and the status that goes with it.
#[derive(Drop)]
pub struct Report {
    lines: Lines,
    status: Status,
}

impl Model for Report {
    ghost use Rattle.cep_examine.specs.Report.{Report as Told, bytes_of, code_of};

    ghost Value = { Told };

    ghost view = { λ report. record {
      written = bytes_of report.lines;
      code = code_of report.status;
    } };
}

impl Report {
    /// The report of a line that is always the same.
    pub fn line(line: &'static [u8], status: Status) -> Report
        ensures { result ≡ record { written = line.now; code = code_of status } }
    {
        let lines = Lines::Fixed(line);
        Report { lines, status }
    }

    /// The report of a text.
    pub fn text(text: Text, status: Status) -> Report
        ensures { result ≡ record { written = text; code = code_of status } }
    {
        let lines = Lines::Text(text);
        Report { lines, status }
    }

    /// Writes what is reported, and answers the number of the status.
    ///
    /// # Errors
    ///
    /// The console failed, or memory ran out in it: a prefix was written.
    pub fn put<C: Console>(&self, console: &mut C) -> Result<u8, ConsoleFault>
        ensures told { IfOk result (λ code.
            Wrote (talked C.talk C.left console.old console.new) self.now.written
            × (code ≡ self.now.code)) }
        ensures begun { OnErr result (WrotePrefix (talked C.talk C.left console.old console.new)
            self.now.written) }
        ensures cause { ConsoleCause (C.faults console.old) (C.faults console.new) result }
    {
        console.put(self.lines.bytes())?;
        Ok(self.status.code())
    }
}
