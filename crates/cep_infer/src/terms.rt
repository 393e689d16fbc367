// From the nodes of an atom, which stand in prefix order, to its tree.
ghost use Rattle.std.specs.Prelude.{ℕ, suc, ◌≡◌, ◌+◌, ◌++◌, ◌≤◌, ◌<◌, drop, IfOk, OnOk};
ghost use Rattle.cep_parse.specs.Written.{Fill};
ghost use Rattle.cep_term.specs.Tree.{atom_of, tree_of, trees_of};
ghost use Rattle.cep_source.specs.Kept.{atom_at};
ghost use Rattle.cep_source.specs.Variables.{blanks_after};
ghost use Rattle.cep_base.specs.FirstNames.{names_among};
ghost use Rattle.cep_types.specs.Heads.{heads_from};
ghost use Rattle.cep_infer.specs.Heads.{IsAtomBy, heads_of, heads_among, argument_count};
ghost use Rattle.cep_infer.specs.Shapes.{IsFilled};

use cep_parse::{RawKind, RawNode};
use cep_source::{AtomRef, Source, Space, Variables, blanks_behind};
use cep_term::{Args, Atom, Term};
use cep_types::{head, number};
use std::alloc::AllocError;

/// Where the nodes of an atom are read: the place of the next node, and how many blanks stand
/// before it in its rule or clause.
#[derive(Clone, Copy, Drop)]
pub(crate) struct Cursor {
    pub at: usize,
    pub blanks: u64,
}

// The next term, where at least one is still to come.
#[cycle(terms)]
#[tactic(auto, using(crate::proofs::RulesInTurn::leaf_behind))]
fn read_term(
    source: &Source,
    variables: &Variables,
    nodes: &[RawNode],
    cursor: &mut Cursor,
) -> Result<Term, AllocError>
    requires { (more : ℕ) × Fill (suc more) (drop cursor.old.at nodes.now) }
    ensures heads { IfOk result (λ term.
        heads_from source.now (names_among variables.now.firsts) cursor.old.blanks
        (drop cursor.old.at nodes.now)
        ≡ heads_of (tree_of term)
        ++ heads_from source.now (names_among variables.now.firsts) cursor.new.blanks
        (drop cursor.new.at nodes.now)) }
    ensures blanks { OnOk result (blanks_after cursor.old.blanks (drop cursor.old.at nodes.now)
        ≡ blanks_after cursor.new.blanks (drop cursor.new.at nodes.now)) }
    ensures filled { OnOk result ((more : ℕ)
        → Fill (suc more) (drop cursor.old.at nodes.now)
        → Fill more (drop cursor.new.at nodes.now)) }
    ensures further { OnOk result (cursor.old.at < cursor.new.at) }
{
    let node = &nodes[cursor.at];
    let number = head(source, variables, cursor.blanks, node)?;
    cursor.blanks = blanks_behind(cursor.blanks, node.kind)?;
    cursor.at += 1;
    match node.kind {
        RawKind::App => {
            let args = read_args(source, variables, nodes, cursor, node.args)?;
            Ok(Term::App(number, args))
        }
        RawKind::Var | RawKind::Blank => Ok(Term::Var(number)),
    }
}

// So many terms, where at least as many are still to come.
#[cycle(terms)]
#[tactic(auto, using(crate::proofs::RulesInTurn::none_more, crate::proofs::RulesInTurn::one_apart))]
fn read_args(
    source: &Source,
    variables: &Variables,
    nodes: &[RawNode],
    cursor: &mut Cursor,
    count: u32,
) -> Result<Args, AllocError>
    requires { (more : ℕ) × Fill (count + more) (drop cursor.old.at nodes.now) }
    ensures heads { IfOk result (λ args.
        heads_from source.now (names_among variables.now.firsts) cursor.old.blanks
        (drop cursor.old.at nodes.now)
        ≡ heads_among (trees_of args)
        ++ heads_from source.now (names_among variables.now.firsts) cursor.new.blanks
        (drop cursor.new.at nodes.now)) }
    ensures count { IfOk result (λ args. argument_count (trees_of args) ≡ count) }
    ensures blanks { OnOk result (blanks_after cursor.old.blanks (drop cursor.old.at nodes.now)
        ≡ blanks_after cursor.new.blanks (drop cursor.new.at nodes.now)) }
    ensures filled { OnOk result ((more : ℕ)
        → Fill (count + more) (drop cursor.old.at nodes.now)
        → Fill more (drop cursor.new.at nodes.now)) }
    ensures further { OnOk result (cursor.old.at ≤ cursor.new.at) }
{
    if count == 0 {
        return Ok(Args::Nil);
    }
    let term = read_term(source, variables, nodes, cursor)?;
    let rest = read_args(source, variables, nodes, cursor, count - 1)?;
    Args::cons(source.alloc(), term, rest)
}

// The atom that is written, where so many blanks stand before it.
#[tactic(auto, using(crate::proofs::RulesInTurn::to_come))]
pub(crate) fn read_atom(
    source: &Source,
    variables: &Variables,
    blanks: &mut u64,
    raw: AtomRef,
) -> Result<Atom, AllocError>
    requires { IsFilled (atom_at raw) }
    ensures atom { IfOk result (λ atom.
        IsAtomBy source.now (names_among variables.now.firsts) blanks.old (atom_at raw.entry)
        (atom_of atom)) }
    ensures blanks { OnOk result (blanks.new ≡ blanks_after blanks.old (atom_at raw.entry).nodes) }
{
    let pred = number(source, Space::Predicates, raw.name)?;
    let mut cursor = Cursor {
        at: 0,
        blanks: *blanks,
    };
    let args = read_args(source, variables, raw.nodes, &mut cursor, raw.args)?;
    *blanks = cursor.blanks;
    Ok(Atom { pred, args })
}
