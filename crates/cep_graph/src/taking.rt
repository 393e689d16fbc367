ghost use Rattle.std.specs.Prelude.{◌≡◌, ℕ, ◌≤◌, ◌⊎◌, ◌↔◌, length, drop, Contains, IfOk, OnOk};
ghost use Rattle.std.specs.List.{AllByRecursion};
ghost use Rattle.cep_term.specs.Tree.{AtomTree, atom_of, IsGroundAtom, IsAtomInRange};
ghost use Rattle.cep_rule.specs.Patterns.{PremiseTree};
ghost use Rattle.cep_rule.specs.Instances.{full_instance};
ghost use Rattle.cep_graph.specs.Queues.{GetsId, KeepsIds};
ghost use Rattle.cep_graph.specs.Traces.{TakesFor};

use crate::tokens::Tokens;
use cep_offer::is_fact;
use cep_order::Numbers;
use cep_rule::{Premises, Signature, Terms, instance};
use cep_term::Atom;
use cep_term::laws::bags_are_lawful;
use std::alloc::{AllocError, Global};

/// A step that takes tokens: the signature of its program, the values of its rule's variables, and its
/// number.
#[derive(Clone, Copy)]
pub struct Taking<'a> {
    pub alloc: Global,
    pub signature: &'a Signature,
    pub values: &'a Terms,
    pub number: u32,
}

impl Taking<'_> {
    /// Takes the tokens that the step picks for its premises from a place on, puts those that stay
    /// back with the step's number among their users, and adds the numbers of the steps that made one
    /// of them or used one that goes; 0 stands for the start.
    pub fn take(
        &self,
        premises: &Premises,
        i: usize,
        tokens: &mut Tokens,
        numbers: &mut Vec<u32>,
    ) -> Result<(), AllocError>
        requires within { i ≤ length premises.now }
        requires range { AllByRecursion (λ (premise : PremiseTree).
            IsAtomInRange (length self.now.values.now) premise.atom) premises.now }
        requires ground { AllByRecursion (λ (premise : PremiseTree).
            IsGroundAtom (full_instance self.now.values.now premise.atom)) premises.now }
        ensures ids { OnOk result (KeepsIds tokens.old tokens.new) }
        ensures takes { OnOk result (TakesFor self.now.signature.now self.now.values.now
            (drop i premises.now) self.now.number
            tokens.old tokens.new numbers.old.items numbers.new.items) }
    {
        bags_are_lawful();
        if i == premises.len() {
            return Ok(());
        }
        let premise = premises.get(i);
        let id = id_of_instance(self.alloc, tokens, &premise.atom, self.values)?;
        if is_fact(self.signature, &premise.atom) {
            numbers.push(tokens.oldest_maker(id))?;
            return self.take(premises, i + 1, tokens, numbers);
        }
        let Some(mut trace) = tokens.take_oldest(id) else {
            // no step of a legal log comes here
            return Ok(());
        };
        numbers.push(trace.maker)?;
        if !premise.kept {
            add_all(numbers, &trace.users)?;
            return self.take(premises, i + 1, tokens, numbers);
        }
        self.take(premises, i + 1, tokens, numbers)?;
        trace.users.push(self.number)?;
        tokens.put_back(id, trace)?;
        Ok(())
    }
}

/// The id of an instance.
pub fn id_of_instance(
    alloc: Global,
    tokens: &mut Tokens,
    atom: &Atom,
    values: &Terms,
) -> Result<usize, AllocError>
    requires range { IsAtomInRange (length values.now) (atom_of atom.now) }
    requires ground { IsGroundAtom (full_instance values.now (atom_of atom.now)) }
    ensures { IfOk result (λ id.
        GetsId tokens.old (full_instance values.now (atom_of atom.now)) id tokens.new) }
{
    let atom = instance(alloc, atom, values)?;
    tokens.id_of(&atom)
}

// Adds numbers after others.
fn add_all(numbers: &mut Vec<u32>, more: &Numbers) -> Result<(), AllocError>
    ensures { OnOk result ((n : ℕ) → (Contains numbers.new.items n
        ↔ (Contains numbers.old.items n ⊎ Contains more.now n))) }
{
    numbers.extend_from_slice(more.as_slice())?;
    Ok(())
}
