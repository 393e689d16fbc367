// Whether a derivation proves an atom, and how high it is.
ghost use Rattle.std.specs.Prelude.{◌≡◌, ◌↔◌, ◌<◌, ◌^◌, map, IsTrue};
ghost use Rattle.cep_term.specs.Tree.{atom_of, tree_of};
ghost use Rattle.cep_rule.specs.Instances.{full_instance, full_instances};
ghost use Rattle.cep_rule.specs.Derivations.{proof_of, proofs_of, proof_height, greatest_height, Proves, ProveAll};

use cep_rule::{Derivation, Derivations, Program, are_values, is_fit, same_instance};
use cep_term::{Atom, Term};

/// The height of a derivation: 1 without goals, and else 1 more than that of the highest derivation
/// of a goal. The measure is this profile's. It takes no memory.
#[cycle(height)]
pub fn height(d: &Derivation) -> u64
    requires { proof_height (proof_of d.now) < 2 ^ 64 }
    ensures { result ≡ proof_height (proof_of d.now) }
{
    match d {
        Derivation::Node(_, _, subs) => 1 + greatest_height(subs),
    }
}

// The height of the highest of these derivations, and 0 if there is none.
#[cycle(height)]
fn greatest_height(subs: &Derivations) -> u64
    requires { greatest_height (proofs_of subs.now) < 2 ^ 64 }
    ensures { result ≡ greatest_height (proofs_of subs.now) }
{
    match subs {
        Derivations::Nil => 0,
        Derivations::Cons(d, rest) => height(d).max(greatest_height(rest)),
    }
}

/// Whether the derivation proves the atom: the atom is fit and the instance of its clause's head by
/// its values, and each goal's derivation proves the goal's instance. That this is what a derivation
/// proves is the textbook's; that the atom must be fit is this profile's. It takes no memory.
pub fn proves(program: &Program, d: &Derivation, atom: &Atom) -> bool
    ensures { IsTrue result ↔ Proves program.now (proof_of d.now) (atom_of atom.now) }
{
    proves_instance(program, d, atom, &[])
}

// Whether the derivation proves the instance of the goal.
#[cycle(proves)]
fn proves_instance(program: &Program, d: &Derivation, goal: &Atom, values: &[Term]) -> bool
    ensures { IsTrue result ↔
        Proves program.now (proof_of d.now)
        (full_instance (map tree_of values.now) (atom_of goal.now)) }
{
    let Derivation::Node(number, given, subs) = d;
    let parts = program.parts();
    let number = *number as usize;
    if number >= parts.clauses.len() {
        return false;
    }
    let clause = parts.clauses.get(number);
    is_fit(goal, values)
        && are_values(
            &parts.signature.cons,
            clause.kinds.as_slice(),
            given.as_slice(),
        )
        && same_instance(goal, values, &clause.head, given.as_slice())
        && prove_instances(program, subs, clause.goals.as_slice(), given.as_slice())
}

// Whether the derivations prove the instances of the goals, one each.
#[cycle(proves)]
fn prove_instances(program: &Program, subs: &Derivations, goals: &[Atom], values: &[Term]) -> bool
    ensures { IsTrue result ↔
        ProveAll program.now (proofs_of subs.now)
        (full_instances (map tree_of values.now) (map atom_of goals.now)) }
{
    match subs {
        Derivations::Nil => goals.is_empty(),
        Derivations::Cons(d, rest) => match goals {
            [] => false,
            [goal, goals @ ..] => {
                proves_instance(program, d, goal, values)
                    && prove_instances(program, rest, goals, values)
            }
        },
    }
}
