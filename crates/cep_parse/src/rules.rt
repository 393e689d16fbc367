// Rules and bags, symbol by symbol.
ghost use Rattle.std.specs.Prelude.{◌≡◌, ◌++◌, ◌∷◌, [], IfOk, None, OnOk, Some};
ghost use Rattle.cep_parse.specs.declared.state.Next.TheVariants.{Stop};
ghost use Rattle.cep_parse.specs.Machine.{atom_for, bag_behind, bag_ended, bag_first, bag_next, bag_unit, before_elem, behind_dollar, behind_elem, behind_left, behind_open, behind_right, behind_stage, rule_ended, rule_from, step_bag, step_rule, whole_rule, with_elem};

use crate::atoms::atom_begun;
use crate::raw::{RawAtom, RawAtoms, RawElem, RawItem, RawRule, RawSide, RawStart, Span};
use crate::state::{
    BagHome, BagPlace, BagSoFar, Next, Plain, RulePlace, RuleSoFar, StageSoFar, State, Use,
};
use crate::symbol::{Symbol, Word};
use std::alloc::{AllocError, Global};

/// No item goes on so. What was read of it is dropped by this call, so that no caller's proof takes
/// it apart variant by variant.
pub(crate) fn stop<T: Drop>(_read: T) -> Next
    ensures { result ≡ Stop }
{
    Next::Stop
}

/// An atom is read for this.
pub(crate) fn atom_for(alloc: Global, name: Span, used: Use) -> Next
    ensures { result ≡ atom_for name used }
{
    Next::Go(State::Atom {
        atom: atom_begun(alloc, name),
        used,
    })
}

/// A rule of which nothing was read but its label and maybe its first element.
pub(crate) fn rule_from(
    stage: Option<StageSoFar>,
    at: u32,
    label: Option<Span>,
    left: RawSide,
) -> RuleSoFar
    ensures { result ≡ rule_from stage at label left }
{
    RuleSoFar {
        stage,
        at,
        label,
        left,
        right: None,
    }
}

// One more element, on the side that is read.
fn push_elem(rule: &mut RuleSoFar, elem: RawElem) -> Result<(), AllocError>
    ensures { OnOk result (rule.new ≡ with_elem rule.old elem) }
{
    match &mut rule.right {
        None => rule.left.push(elem),
        Some(right) => right.push(elem),
    }
}

/// The rule with one more element, on the side that is read.
pub(crate) fn with_elem(mut rule: RuleSoFar, elem: RawElem) -> Result<RuleSoFar, AllocError>
    ensures { IfOk result (λ more. more ≡ with_elem rule elem) }
{
    push_elem(&mut rule, elem)?;
    Ok(rule)
}

// The dot of a rule. None may stand on a left side.
fn rule_ended(rule: RuleSoFar) -> Result<Next, AllocError>
    ensures { IfOk result (λ next. next ≡ behind_elem rule Word.Dot) }
{
    let RuleSoFar {
        stage,
        at,
        label,
        left,
        right,
    } = rule;
    match right {
        None => Ok(Next::Stop),
        Some(right) => whole_rule(
            stage,
            RawRule {
                at,
                label,
                left,
                right,
            },
        ),
    }
}

// A rule is whole.
fn whole_rule(stage: Option<StageSoFar>, rule: RawRule) -> Result<Next, AllocError>
    ensures { IfOk result (λ next. next ≡ rule_ended stage rule) }
{
    match stage {
        None => Ok(Next::Item {
            item: RawItem::Outer(rule),
            may_dot: false,
        }),
        Some(StageSoFar { name, mut rules }) => {
            rules.push(rule)?;
            Ok(Next::Go(State::Rules(StageSoFar { name, rules })))
        }
    }
}

fn at_place(rule: RuleSoFar, place: RulePlace) -> Next
    ensures { result ≡ Next.Go (State.Rule rule place) }
{
    Next::Go(State::Rule { rule, place })
}

// An element was read that is no atom.
fn elem_read(rule: RuleSoFar, elem: RawElem) -> Result<Next, AllocError>
    ensures { IfOk result (λ next. next
        ≡ Next.Go (State.Rule (with_elem rule elem) RulePlace.Behind)) }
{
    Ok(at_place(with_elem(rule, elem)?, RulePlace::Behind))
}

/// Before an element.
pub(crate) fn before_elem(
    alloc: Global,
    rule: RuleSoFar,
    symbol: Symbol,
) -> Result<Next, AllocError>
    ensures { IfOk result (λ next. next ≡ before_elem rule symbol.word symbol.at) }
{
    let outer = rule.stage.is_none();
    let right = rule.right.is_some();
    match symbol.word {
        Word::Name => Ok(atom_for(alloc, symbol.at, Use::Elem { rule, kept: false })),
        Word::Dollar if !right => Ok(at_place(rule, RulePlace::Kept)),
        Word::Open => Ok(at_place(rule, RulePlace::Unit)),
        Word::Qui if outer && !right => elem_read(rule, RawElem::Qui(symbol.at)),
        Word::Stage if outer => Ok(at_place(rule, RulePlace::Stage)),
        _ => Ok(stop(rule)),
    }
}

/// After the first element of an outer rule.
pub(crate) fn after_first(
    alloc: Global,
    at: u32,
    label: Option<Span>,
    elem: RawElem,
    symbol: Symbol,
) -> Result<Next, AllocError>
    ensures { IfOk result (λ next. next
        ≡ behind_left (rule_from None at label (elem ∷ [])) symbol.word) }
{
    let rule = rule_from(None, at, label, RawSide::new(alloc));
    behind_elem(alloc, with_elem(rule, elem)?, symbol)
}

// The right side of a rule begins.
fn right_begun(alloc: Global, rule: RuleSoFar) -> RuleSoFar
    ensures { result ≡ record {
      stage = rule.stage;
      at = rule.at;
      label = rule.label;
      left =
          rule.left;
      right = Some [];
    } }
{
    RuleSoFar {
        stage: rule.stage,
        at: rule.at,
        label: rule.label,
        left: rule.left,
        right: Some(RawSide::new(alloc)),
    }
}

/// After an element.
pub(crate) fn behind_elem(
    alloc: Global,
    rule: RuleSoFar,
    symbol: Symbol,
) -> Result<Next, AllocError>
    ensures { IfOk result (λ next. next ≡ behind_elem rule symbol.word) }
{
    let right = rule.right.is_some();
    match symbol.word {
        Word::Star => Ok(at_place(rule, RulePlace::Before)),
        Word::Lolli if !right => Ok(at_place(right_begun(alloc, rule), RulePlace::Before)),
        Word::Dot => rule_ended(rule),
        _ => Ok(stop(rule)),
    }
}

/// In a rule.
pub(crate) fn step_rule(
    alloc: Global,
    rule: RuleSoFar,
    place: RulePlace,
    symbol: Symbol,
) -> Result<Next, AllocError>
    ensures { IfOk result (λ next. next ≡ step_rule rule place symbol.word symbol.at) }
{
    match (place, symbol.word) {
        (RulePlace::Before, _) => before_elem(alloc, rule, symbol),
        (RulePlace::Kept, Word::Name) => {
            Ok(atom_for(alloc, symbol.at, Use::Elem { rule, kept: true }))
        }
        (RulePlace::Unit, Word::Close) => Ok(at_place(rule, RulePlace::Behind)),
        (RulePlace::Stage, Word::Name) => elem_read(rule, RawElem::Stage(symbol.at)),
        (RulePlace::Behind, _) => behind_elem(alloc, rule, symbol),
        _ => Ok(stop(rule)),
    }
}

// A bag is whole.
fn bag_ended(bag: BagSoFar) -> Next
    ensures { result ≡ bag_ended bag.home bag.atoms }
{
    let BagSoFar { home, atoms } = bag;
    match home {
        BagHome::Context { name } => Next::Item {
            item: RawItem::Context { name, atoms },
            may_dot: true,
        },
        BagHome::Trace { at, limit, stage } => Next::Go(State::Ending(RawItem::Trace {
            at,
            limit,
            stage,
            start: RawStart::Listed(atoms),
        })),
    }
}

fn in_bag(bag: BagSoFar, place: BagPlace) -> Next
    ensures { result ≡ Next.Go (State.Bag bag place) }
{
    Next::Go(State::Bag { bag, place })
}

/// In a bag.
pub(crate) fn step_bag(alloc: Global, bag: BagSoFar, place: BagPlace, symbol: Symbol) -> Next
    ensures { result ≡ step_bag bag place symbol.word symbol.at }
{
    match (place, symbol.word) {
        (BagPlace::First | BagPlace::Next, Word::Name) => {
            atom_for(alloc, symbol.at, Use::Bag(bag))
        }
        (BagPlace::First | BagPlace::Next, Word::Open) => in_bag(bag, BagPlace::Unit),
        (BagPlace::First | BagPlace::Behind, Word::CloseBrace) => bag_ended(bag),
        (BagPlace::Unit, Word::Close) => in_bag(bag, BagPlace::Behind),
        (BagPlace::Behind, Word::Comma | Word::Star) => in_bag(bag, BagPlace::Next),
        _ => stop(bag),
    }
}

/// After an atom in a bag.
pub(crate) fn after_bag_atom(
    alloc: Global,
    mut bag: BagSoFar,
    atom: RawAtom,
    symbol: Symbol,
) -> Result<Next, AllocError>
    ensures { IfOk result (λ next. next
        ≡ bag_behind (record { home = bag.home; atoms = bag.atoms ++ atom ∷ [] }) symbol.word) }
{
    bag.atoms.push(atom)?;
    Ok(step_bag(alloc, bag, BagPlace::Behind, symbol))
}
