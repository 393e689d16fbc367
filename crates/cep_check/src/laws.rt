//! Laws of logs and verdicts, for the crates that rest on them. Each function computes nothing, and
//! its contract is the law.
ghost use Rattle.std.specs.Prelude.{◌≡◌, ℕ};
ghost use Rattle.cep_rule.specs.declared.parts.Parts.{Parts};
ghost use Rattle.cep_log.specs.declared.log.Log.{Log};
ghost use Rattle.cep_check.specs.declared.cause.Cause.{Cause};
ghost use Rattle.cep_check.specs.declared.cause.Verdict.{Verdict};
ghost use Rattle.cep_check.specs.Causes.{IsLogRefused, IsVerdict};
ghost use Rattle.cep_check.specs.Telling.{cause_text, IsTellable};
ghost use Rattle.cep_log.specs.Legal.{IsLegal, IsLogOf};

use cep_rule::Program;
use cep_rule::laws::{
    atoms_come_from_somewhere, offers_have_one_order, one_state_after_a_step, types_are_lawful,
    what_is_needed_is_there,
};
use cep_term::laws::bags_are_lawful;

/// A log that is refused is not legal: so a log is accepted if and only if it is legal.
pub fn refused_logs_are_not_legal()
    ensures { (program : Parts) (log : Log) (line : ℕ) (cause : Cause)
        → IsLogRefused program log line cause
        → ¬ IsLegal program log }
{
    bags_are_lawful();
    one_state_after_a_step();
    what_is_needed_is_there();
}

/// A log of the program is refused for one cause at one line: what is told of it is one text.
pub fn one_cause()
    ensures { (program : Parts) (log : Log) (line line' : ℕ) (cause other : Cause)
        → IsLogOf program log
        → IsLogRefused program log line cause
        → IsLogRefused program log line' other
        → (line ≡ line') × (cause_text program cause ≡ cause_text program other) }
{
    bags_are_lawful();
    one_state_after_a_step();
    what_is_needed_is_there();
    offers_have_one_order();
}

/// What checking a log of the program comes to can be told: the stages and rules of the cause are
/// the program's, and its atoms and its offer have a text.
pub fn verdicts_can_be_told(program: &Program)
    ensures { (log : Log) (verdict : Verdict)
        → IsLogOf program.now log
        → IsVerdict program.now log verdict
        → IsTellable program.now verdict }
{
    bags_are_lawful();
    types_are_lawful();
    atoms_come_from_somewhere();
    program.parts();
}
