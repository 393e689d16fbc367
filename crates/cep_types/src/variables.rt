// The variables of atoms that share them, each with the type that is wanted where it occurs first.
ghost use Rattle.std.specs.Prelude.{◌≡◌, ◌∷◌, ◌++◌, [], IfOk, OnOk};
ghost use Rattle.std.specs.List.{list_any};
ghost use Rattle.cep_parse.specs.Raw.{atoms_of};
ghost use Rattle.cep_base.specs.FirstNames.{names_among};
ghost use Rattle.cep_source.specs.Met.{none_met};
ghost use Rattle.cep_source.specs.Kept.{atom_at, clause_item};
ghost use Rattle.cep_types.specs.Heads.{variable_of, head_at};
ghost use Rattle.cep_types.specs.Met.{AreMet, is_variable_or_blank, kinds_met, head_by};

use crate::numbers::{kinds, number, number_at};
use crate::sites::{pending, site};
use cep_base::List;
use cep_parse::{RawElem, RawKind, RawNode, RawRule};
use cep_source::{AtomRef, ClauseRef, Source, Space, Variables, variable_at};
use std::alloc::AllocError;

// Whether a node is a variable or a blank.
fn has_variable(nodes: &[RawNode]) -> bool
    ensures { result ≡ list_any (λ node. is_variable_or_blank node.kind) nodes.now }
{
    nodes.iter().any(|node| node.kind != RawKind::App)
}

// Meets the variables of an atom. Most facts and atoms of states have none.
pub(crate) fn meet_atom(
    source: &Source,
    variables: &mut Variables,
    atom: AtomRef,
) -> Result<(), AllocError>
    ensures { OnOk result (AreMet source.now
        (atom_at atom.entry ∷ []) variables.old variables.new) }
{
    if !has_variable(atom.nodes) {
        return Ok(());
    }
    let mut pending = pending(source, atom.name)?;
    for node in atom.nodes {
        let Some(site) = site(source, &mut pending, node)? else {
            continue;
        };
        variables.meet(source, node, site.wants)?;
    }
    Ok(())
}

// Meets the variables of a side.
fn meet_side(source: &Source, variables: &mut Variables, side: &[RawElem]) -> Result<(), AllocError>
    ensures { OnOk result (AreMet source.now (atoms_of side.now) variables.old variables.new) }
{
    for elem in side {
        let Some(atom) = elem.atom() else {
            continue;
        };
        meet_atom(source, variables, AtomRef::of_raw(atom))?;
    }
    Ok(())
}

/// The variables of a rule.
pub fn rule_variables(source: &Source, rule: &RawRule) -> Result<Variables, AllocError>
    ensures { IfOk result (λ variables.
        AreMet source.now (atoms_of rule.now.left ++ atoms_of rule.now.right) none_met variables) }
{
    let mut variables = Variables::unmet(source.alloc());
    meet_side(source, &mut variables, rule.left.as_slice())?;
    meet_side(source, &mut variables, rule.right.as_slice())?;
    Ok(variables)
}

/// The variables of a clause.
pub fn clause_variables(source: &Source, clause: &ClauseRef) -> Result<Variables, AllocError>
    ensures { IfOk result (λ variables.
        AreMet source.now ((clause_item clause.now).head
        ∷ (clause_item clause.now).goals) none_met variables) }
{
    let mut variables = Variables::unmet(source.alloc());
    meet_atom(source, &mut variables, clause.head)?;
    for goal in clause.goals {
        meet_atom(source, &mut variables, AtomRef::of_raw(goal))?;
    }
    Ok(variables)
}

// The number of a variable, from 0.
fn variable_number(variables: &Variables, name: &[u8]) -> Result<u32, AllocError>
    ensures { IfOk result (λ number. number
        ≡ variable_of (names_among variables.now.firsts) name.now) }
{
    number_at(variables.firsts.number(name).unwrap_or(0))
}

/// The number of what stands at a node, a constructor or a variable, where so many blanks stand
/// before it.
pub fn head(
    source: &Source,
    variables: &Variables,
    blanks: u64,
    node: &RawNode,
) -> Result<u32, AllocError>
    ensures { IfOk result (λ number. head_by node.now.kind number node.now.args
        ≡ head_at source.now (names_among variables.now.firsts) blanks node.now.kind node.now.at
        node.now.args) }
{
    match variable_at(source, blanks, node)? {
        Some(name) => variable_number(variables, name.bytes()),
        None => number(source, Space::Constructors, node.at),
    }
}

/// The types of variables, by their numbers.
pub fn variable_kinds(source: &Source, variables: &Variables) -> Result<List<u32>, AllocError>
    ensures { IfOk result (λ kinds. kinds ≡ kinds_met source.now variables.now.firsts) }
{
    let types = variables.firsts.values(source.alloc())?;
    kinds(source, &types)
}
