// The left sides of rules.
ghost use Rattle.std.specs.Prelude.{◌≡◌, ◌||◌, ◌∷◌, [], slice_get, IfOk, OnOk};
ghost use Rattle.std.specs.List.{AllByRecursion};
ghost use Rattle.std.specs.Option.{option_map};
ghost use Rattle.cep_parse.specs.Raw.{atoms_in, atoms_of};
ghost use Rattle.cep_term.specs.Tree.{atom_of};
ghost use Rattle.cep_source.specs.Items.{preds_of};
ghost use Rattle.cep_base.specs.FirstNames.{names_among};
ghost use Rattle.cep_infer.specs.Meaning.{is_back, is_fact_by};
ghost use Rattle.cep_infer.specs.Built.{IsLeftBuilt};
ghost use Rattle.cep_infer.specs.Shapes.{IsFilled};

use crate::terms::read_atom;
use cep_base::PredKind;
use cep_parse::RawElem;
use cep_rule::{AtomList, Premise, Premises};
use cep_source::{AtomRef, Source, Variables, item_at};
use cep_term::Atom;
use std::alloc::AllocError;

/// The premises of a left side, those of states and the backward ones.
#[derive(Drop)]
pub(crate) struct LeftSide {
    pub premises: Premises,
    pub backs: AtomList,
}

// Of which kind the predicate of an atom is.
fn pred_kind(source: &Source, atom: &Atom) -> Option<PredKind>
    ensures { result ≡ option_map (λ pred. pred.kind)
        (slice_get (preds_of source.now) (atom_of atom.now).pred) }
{
    Some(item_at(source.preds(), atom.pred as usize)?.kind)
}

// Whether clauses define the predicate of an atom.
fn is_back(source: &Source, atom: &Atom) -> bool
    ensures { result ≡ is_back source.now (atom_of atom.now) }
{
    pred_kind(source, atom).is_some_and(PredKind::is_backward)
}

// Whether an atom is a fact.
pub(crate) fn is_fact(source: &Source, atom: &Atom) -> bool
    ensures { result ≡ is_fact_by source.now (atom_of atom.now) }
{
    pred_kind(source, atom).is_some_and(PredKind::is_of_facts)
}

// Whether a premise is kept: it is marked, or a fact.
fn is_kept(source: &Source, marked: bool, atom: &Atom) -> bool
    ensures { result ≡ (marked || is_fact_by source.now (atom_of atom.now)) }
{
    marked || is_fact(source, atom)
}

// Adds the premise that is written.
fn push_premise(
    source: &Source,
    variables: &Variables,
    elem: &RawElem,
    blanks: &mut u64,
    left: &mut LeftSide,
) -> Result<(), AllocError>
    requires { AllByRecursion IsFilled (atoms_in elem.now) }
    ensures { OnOk result (IsLeftBuilt source.now (names_among variables.now.firsts)
        (elem.now ∷ []) blanks.old blanks.new left.old left.new) }
{
    let RawElem::Atom { kept, atom } = elem else {
        return Ok(());
    };
    let atom = read_atom(source, variables, blanks, AtomRef::of_raw(atom))?;
    if is_back(source, &atom) {
        return left.backs.push(atom);
    }
    let kept = is_kept(source, *kept, &atom);
    left.premises.push(Premise { atom, kept })
}

// The premises of a left side, before which so many blanks stand.
#[tactic(auto, using(crate::proofs::RulesInTurn::elem_filled))]
pub(crate) fn read_left(
    source: &Source,
    variables: &Variables,
    side: &[RawElem],
    blanks: &mut u64,
) -> Result<LeftSide, AllocError>
    requires { AllByRecursion IsFilled (atoms_of side.now) }
    ensures { IfOk result (IsLeftBuilt source.now
        (names_among variables.now.firsts) side.now blanks.old blanks.new
        (record { premises = []; backs = [] })) }
{
    let mut left = LeftSide {
        premises: Premises::new(source.alloc()),
        backs: AtomList::new(source.alloc()),
    };
    for elem in side {
        push_premise(source, variables, elem, blanks, &mut left)?;
    }
    Ok(left)
}
