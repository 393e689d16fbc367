ghost use Rattle.std.specs.Prelude.{IfOk};
ghost use Rattle.cep_rule.specs.Program.{IsTypedRule};
ghost use Rattle.cep_rule.specs.Typing.{AreValues};
ghost use Rattle.cep_graph.specs.Trails.{TouchesBy};

use crate::making::make;
use crate::sorting::in_order;
use crate::taking::Taking;
use crate::tokens::Tokens;
use cep_order::Numbers;
use cep_rule::laws::types_are_lawful;
use cep_rule::{Rule, Signature, Terms};
use cep_term::laws::bags_are_lawful;
use std::alloc::{AllocError, Global};

/// What the step of a number does to the tokens, by a rule with these values: the numbers of the
/// earlier steps on which it rests.
pub fn touch(
    alloc: Global,
    signature: &Signature,
    rule: &Rule,
    values: &Terms,
    number: u32,
    tokens: &mut Tokens,
) -> Result<Numbers, AllocError>
    requires typed { IsTypedRule signature.now rule.now }
    requires values { AreValues signature.now.cons rule.now.kinds values.now }
    ensures { IfOk result (TouchesBy signature.now values.now rule.now number tokens.old
        tokens.new) }
{
    types_are_lawful();
    bags_are_lawful();
    let mut numbers = Vec::new(alloc);
    let taking = Taking {
        alloc,
        signature,
        values,
        number,
    };
    taking.take(&rule.premises, 0, tokens, &mut numbers)?;
    make(alloc, signature, &rule.right, values, number, tokens)?;
    in_order(alloc, numbers)
}
