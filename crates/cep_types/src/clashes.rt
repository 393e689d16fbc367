// The terms of a text that are of other types than are wanted.
ghost use Rattle.std.specs.Prelude.{◌≡◌, [], ◌∷◌, ◌++◌, None, IfOk};
ghost use Rattle.std.specs.List.{flat_map};
ghost use Rattle.std.specs.Option.{option_map};
ghost use Rattle.cep_refusal.specs.First.{first_in, IsFirstOrNone};
ghost use Rattle.cep_parse.specs.Raw.{atoms_of};
ghost use Rattle.cep_source.specs.Items.{said};
ghost use Rattle.cep_source.specs.Kept.{atom_at, clause_item};
ghost use Rattle.cep_types.specs.Clashes.{type_at, clash_of, atom_clashes, scope_clashes, state_clashes, rule_clashes, clause_clashes, context_clashes, trace_clashes};
ghost use Rattle.cep_types.specs.Met.{type_met};
ghost use Rattle.cep_types.specs.Sites.{Mistyped, clause_scope};

use crate::sites::{Expected, pending, site};
use crate::variables::{clause_variables, meet_atom, rule_variables};
use cep_parse::{RawAtom, RawElem, RawKind, RawNode, RawRule, Span};
use cep_refusal::{Fault, FirstFault, Reason};
use cep_source::{AtomRef, ClauseRef, Source, Variables};
use std::alloc::AllocError;

// The type of the term at a node, whose constructor, if it is one, makes terms of this type.
fn node_type(
    source: &Source,
    variables: &Variables,
    node: &RawNode,
    sort: Option<Span>,
) -> Option<Span>
    requires { option_map (said source.now) sort
        ≡ type_at source.now (λ name. None) node.now.kind node.now.at }
    ensures { option_map (said source.now) result
        ≡ type_at source.now (type_met source.now variables.now.firsts) node.now.kind node.now.at }
{
    match node.kind {
        RawKind::App | RawKind::Blank => sort,
        RawKind::Var => variables.firsts.under(source.said(node.at)),
    }
}

// A term of another type than is wanted.
fn clash(source: &Source, variables: &Variables, node: &RawNode, site: Expected) -> Option<Fault>
    requires { option_map (said source.now) site.sort
        ≡ type_at source.now (λ name. None) node.now.kind node.now.at }
    ensures { result ≡ first_in (clash_of source.now (type_met source.now variables.now.firsts)
        (record { node = node.now; wants = said source.now site.wants })) }
{
    let is = node_type(source, variables, node, site.sort)?;
    if source.said(is) == source.said(site.wants) {
        return None;
    }
    Some(Fault {
        reason: Reason::TypeClash,
        at: node.at.from,
    })
}

// The first one of an atom.
fn atom_clash(
    source: &Source,
    variables: &Variables,
    atom: AtomRef,
) -> Result<Option<Fault>, AllocError>
    ensures { IfOk result (λ first. first
        ≡ first_in (atom_clashes source.now (type_met source.now variables.now.firsts)
        (atom_at atom.entry))) }
{
    let mut first = FirstFault::none();
    let mut pending = pending(source, atom.name)?;
    for node in atom.nodes {
        let Some(site) = site(source, &mut pending, node)? else {
            continue;
        };
        first.note(clash(source, variables, node, site));
    }
    Ok(first.found())
}

// The first one of a side.
fn side_clash(
    source: &Source,
    variables: &Variables,
    side: &[RawElem],
) -> Result<Option<Fault>, AllocError>
    ensures { IfOk result (λ first. first
        ≡ first_in (flat_map (atom_clashes source.now (type_met source.now variables.now.firsts))
        (atoms_of side.now))) }
{
    let mut first = FirstFault::none();
    for elem in side {
        let Some(atom) = elem.atom() else {
            continue;
        };
        let clash = atom_clash(source, variables, AtomRef::of_raw(atom))?;
        first.note(clash);
    }
    Ok(first.found())
}

// The first one of a rule.
fn rule_clash(source: &Source, rule: &RawRule) -> Result<Option<Fault>, AllocError>
    ensures { IfOk result (λ first. first
        ≡ first_in (scope_clashes source.now (atoms_of rule.now.left ++ atoms_of rule.now.right))) }
{
    let variables = rule_variables(source, rule)?;
    let first = side_clash(source, &variables, rule.left.as_slice())?;
    let other = side_clash(source, &variables, rule.right.as_slice())?;
    Ok(Fault::first_of(first, other))
}

// The first one of atoms that share these variables.
fn clash_among(
    source: &Source,
    variables: &Variables,
    atoms: &[RawAtom],
) -> Result<Option<Fault>, AllocError>
    ensures { IfOk result (λ first. first
        ≡ first_in (flat_map (atom_clashes source.now (type_met source.now variables.now.firsts))
        atoms.now)) }
{
    let mut first = FirstFault::none();
    for atom in atoms {
        let clash = atom_clash(source, variables, AtomRef::of_raw(atom))?;
        first.note(clash);
    }
    Ok(first.found())
}

// The first one of an atom that shares its variables with no other.
fn lone_clash(source: &Source, atom: AtomRef) -> Result<Option<Fault>, AllocError>
    ensures { IfOk result (λ first. first
        ≡ first_in (scope_clashes source.now (atom_at atom.entry ∷ []))) }
{
    let mut variables = Variables::unmet(source.alloc());
    meet_atom(source, &mut variables, atom)?;
    atom_clash(source, &variables, atom)
}

// The first one of a clause.
fn clause_clash(source: &Source, clause: &ClauseRef) -> Result<Option<Fault>, AllocError>
    ensures { IfOk result (λ first. first
        ≡ first_in (scope_clashes source.now (clause_scope (clause_item clause.now)))) }
{
    if clause.goals.is_empty() {
        return lone_clash(source, clause.head);
    }
    let variables = clause_variables(source, clause)?;
    let first = atom_clash(source, &variables, clause.head)?;
    let other = clash_among(source, &variables, clause.goals)?;
    Ok(Fault::first_of(first, other))
}

// The first one of atoms of states, each of which has variables of its own.
fn states_clash(source: &Source, atoms: &[RawAtom]) -> Result<Option<Fault>, AllocError>
    ensures { IfOk result (λ first. first ≡ first_in (state_clashes source.now atoms.now)) }
{
    let mut first = FirstFault::none();
    for atom in atoms {
        let clash = lone_clash(source, AtomRef::of_raw(atom))?;
        first.note(clash);
    }
    Ok(first.found())
}

fn rules_clash(source: &Source) -> Result<Option<Fault>, AllocError>
    ensures { IfOk result (λ first. first ≡ first_in (rule_clashes source.now)) }
{
    let mut first = FirstFault::none();
    for rule in source.rules() {
        let clash = rule_clash(source, rule.raw)?;
        first.note(clash);
    }
    Ok(first.found())
}

fn clauses_clash(source: &Source) -> Result<Option<Fault>, AllocError>
    ensures { IfOk result (λ first. first ≡ first_in (clause_clashes source.now)) }
{
    let mut first = FirstFault::none();
    for clause in source.clauses() {
        let clash = clause_clash(source, clause)?;
        first.note(clash);
    }
    Ok(first.found())
}

fn contexts_clash(source: &Source) -> Result<Option<Fault>, AllocError>
    ensures { IfOk result (λ first. first ≡ first_in (context_clashes source.now)) }
{
    let mut first = FirstFault::none();
    for context in source.contexts() {
        let clash = states_clash(source, context.atoms)?;
        first.note(clash);
    }
    Ok(first.found())
}

fn traces_clash(source: &Source) -> Result<Option<Fault>, AllocError>
    ensures { IfOk result (λ first. first ≡ first_in (trace_clashes source.now)) }
{
    let mut first = FirstFault::none();
    for trace in source.traces() {
        let clash = states_clash(source, trace.start.listed())?;
        first.note(clash);
    }
    Ok(first.found())
}

/// The first term of the text that is of another type than is wanted, or none.
pub fn type_fault(source: &Source) -> Result<Option<Fault>, AllocError>
    ensures { IfOk result (λ first. IsFirstOrNone (Mistyped source.now) first) }
{
    let rules = Fault::first_of(rules_clash(source)?, clauses_clash(source)?);
    let states = Fault::first_of(contexts_clash(source)?, traces_clash(source)?);
    Ok(Fault::first_of(rules, states))
}
