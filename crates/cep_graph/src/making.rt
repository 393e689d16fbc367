ghost use Rattle.std.specs.Prelude.{length, OnOk};
ghost use Rattle.std.specs.List.{AllByRecursion};
ghost use Rattle.cep_term.specs.Tree.{AtomTree, IsGroundAtom, IsAtomInRange};
ghost use Rattle.cep_rule.specs.Instances.{full_instance};
ghost use Rattle.cep_graph.specs.Traces.{MakesFor};

use crate::taking::id_of_instance;
use crate::tokens::Tokens;
use crate::trace::Trace;
use cep_base::List;
use cep_offer::is_fact;
use cep_rule::{AtomList, Signature, Terms};
use cep_term::laws::bags_are_lawful;
use std::alloc::{AllocError, Global};

/// Adds the tokens that the step of a number makes: those of its right atoms, but for facts that
/// are there.
pub fn make(
    alloc: Global,
    signature: &Signature,
    right: &AtomList,
    values: &Terms,
    number: u32,
    tokens: &mut Tokens,
) -> Result<(), AllocError>
    requires range { AllByRecursion (λ (a : AtomTree).
        IsAtomInRange (length values.now) a) right.now }
    requires ground { AllByRecursion (λ (a : AtomTree).
        IsGroundAtom (full_instance values.now a)) right.now }
    ensures { OnOk result (MakesFor signature.now values.now right.now number tokens.old
        tokens.new) }
{
    bags_are_lawful();
    for i in 0..right.len() {
        let atom = right.get(i);
        let id = id_of_instance(alloc, tokens, atom, values)?;
        if !is_fact(signature, atom) || !tokens.has(id) {
            let users = List::new(alloc);
            tokens.add(
                id,
                Trace {
                    maker: number,
                    users,
                },
            )?;
        }
    }
    Ok(())
}
