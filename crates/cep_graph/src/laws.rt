//! Laws of graphs and of reorderings by a seed. Each function computes nothing, and its contract is
//! the law.
ghost use Rattle.std.specs.Prelude.{◌≡◌, ℕ, List};
ghost use Rattle.cep_rule.specs.declared.parts.Parts.{Parts};
ghost use Rattle.cep_log.specs.declared.log.Log.{Log};
ghost use Rattle.cep_order.specs.declared.step_cause.StepCause.{StepCause};
ghost use Rattle.cep_cause.specs.declared.reordered.Reordered.{Reordered};
ghost use Rattle.cep_cause.specs.Graphs.{IsGraph};
ghost use Rattle.cep_graph.specs.BySeed.{IsReorderedBy};

use cep_cause::laws::{logs_touch_tokens, orders_come_to_one_answer};
use cep_order::laws::one_order_for_a_seed;

/// A log has one graph.
pub fn one_graph()
    ensures { (program : Parts) (log : Log) (one other : List StepCause)
        → IsGraph program log one
        → IsGraph program log other
        → one ≡ other }
{
    logs_touch_tokens();
}

/// A log comes to one answer by a seed.
pub fn one_reordering_by_a_seed()
    ensures { (program : Parts) (log : Log) (seed : ℕ) (one other : Reordered)
        → IsReorderedBy program log seed one
        → IsReorderedBy program log seed other
        → one ≡ other }
{
    one_graph();
    one_order_for_a_seed();
    orders_come_to_one_answer();
}
