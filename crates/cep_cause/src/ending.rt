// What a text gets after all steps of a log, and when it is too long.
ghost use Rattle.std.specs.Prelude.{◌≡◌, ◌↔◌, ◌<◌, ◌++◌, length, IsTrue, OnOk, OnErr};
ghost use Rattle.cep_base.specs.declared.limits.TheConstants.{MOST_LOG};
ghost use Rattle.cep_rule.specs.State.{IsState};
ghost use Rattle.cep_text.specs.Writing.{IsBegun};
ghost use Rattle.cep_cause.specs.Renewing.{last_lines};

use cep_base::Text;
use cep_base::limits::MOST_LOG;
use cep_lines::put_end;
use cep_log::LogEnd;
use cep_rule::Program;
use cep_term::Bag;
use std::alloc::AllocError;

// The end of a log, where it has one, at this state. Only out of memory is refused.
pub(crate) fn put_last(
    program: &Program,
    end: &Option<LogEnd>,
    state: &Bag,
    out: &mut Text,
) -> Result<(), AllocError>
    requires { IsState program.now.signature state.now }
    ensures ok { OnOk result (out.new
        ≡ out.old ++ last_lines program.now.signature end.now state.now) }
    ensures err { OnErr result (IsBegun out.old
        (last_lines program.now.signature end.now state.now) out.new) }
{
    match end {
        None => Ok(()),
        Some(end) => put_end(program, end.word, state, out),
    }
}

// Whether the text has more bytes than a transcript may have. It takes no memory.
pub(crate) fn is_long(text: &Text) -> bool
    ensures { IsTrue result ↔ (MOST_LOG < length text.now) }
{
    text.bytes().len() > MOST_LOG
}
