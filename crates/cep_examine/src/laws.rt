//! The law of what is reported of a second file. The function computes nothing, and its contract is
//! the law.
ghost use Rattle.std.specs.Prelude.{◌≡◌, ◌≤◌, ℕ, List};
ghost use Rattle.cep_rule.specs.declared.parts.Parts.{Parts};
ghost use Rattle.cep_rule.specs.Program.{IsProgram};
ghost use Rattle.cep_words.specs.declared.request.Task.{Task};
ghost use Rattle.cep_examine.specs.Report.{Report};
ghost use Rattle.cep_examine.specs.Reports.{Reports};

use cep_graph::laws::one_reordering_by_a_seed;
use cep_log::laws::one_log;
use cep_weigh::laws::one_reading;

/// Whatever is reported of the same bytes, for one task and against one program, its status is one,
/// and 5 or less.
pub fn one_status()
    ensures same { (task : Task) (program : Parts) (bytes : List ℕ) (one other : Report)
        → IsProgram program → Reports task program bytes one → Reports task program bytes other
        → one.code ≡ other.code }
    ensures low { (task : Task) (program : Parts) (bytes : List ℕ) (report : Report)
        → Reports task program bytes report → report.code ≤ 5 }
{
    one_reading();
    one_log();
    one_reordering_by_a_seed();
}
