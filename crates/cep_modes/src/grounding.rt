ghost use Rattle.std.specs.Prelude.{IfOk};
ghost use Rattle.cep_modes.specs.Grounding.{AreInOrder, AreAllMarks};

use crate::bad::{bad_pairs, marks_of_rule};
use cep_base::List;
use cep_rule::Parts;
use cep_rule::laws::types_are_lawful;
use std::alloc::{AllocError, Global};

/// Marks, one for each backward premise of each rule, both in written order.
pub type Marks = List<List<bool>>;

/// Which backward premises may leave a variable unknown: those that call a pair of a predicate and
/// known positions which is bad. Groundness is this profile's. Only out of memory is refused.
pub fn ungrounded_premises(alloc: Global, parts: &Parts) -> Result<Marks, AllocError>
    requires { AreInOrder parts.now }
    ensures { IfOk result (λ marks. AreAllMarks parts.now.clauses parts.now.rules marks) }
{
    types_are_lawful();
    let bad = bad_pairs(alloc, parts)?;
    let mut marks = List::new(alloc);
    for rule in 0..parts.rules.len() {
        marks.push(marks_of_rule(alloc, parts.rules.get(rule), &bad)?)?;
    }
    Ok(marks)
}
