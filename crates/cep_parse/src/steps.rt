// What a symbol does in each state.
ghost use Rattle.std.specs.Prelude.{◌≡◌, IfOk, None};
ghost use Rattle.cep_parse.specs.Machine.{atom_of_names, before_goal, rule_named, behind_atom, behind_goal, behind_head, head_alone, names_begun, step, step_atom, step_declared, step_ending, step_names, step_rules, with_goal};

use crate::atoms::{add_names, atom_begun, grow, whole_atom};
use crate::begins::{declared, ending, step_plain};
use crate::raw::{RawAtom, RawAtoms, RawElem, RawItem, RawSide, Span, Spans};
use crate::rules::{
    after_bag_atom, after_first, atom_for, behind_elem, rule_from, step_bag, step_rule, stop,
    with_elem,
};
use crate::state::{
    AtomSoFar, BagPlace, ClauseSoFar, Growth, Next, Plain, RulePlace, StageSoFar, State, Use,
};
use crate::symbol::{Symbol, Word};
use cep_base::PredKind;
use std::alloc::{AllocError, Global};

// The dot of a clause without goals. `a : b.` is a colon.
fn head_alone(alloc: Global, label: Option<Span>, head: RawAtom) -> RawItem
    ensures { result ≡ head_alone label head }
{
    match label {
        Some(left) if head.args == 0 => RawItem::Colon {
            left,
            args: Spans::new(alloc),
            right: head.name,
        },
        _ => RawItem::Clause {
            label,
            head,
            goals: RawAtoms::new(alloc),
        },
    }
}

// After the first atom of a clause or of an outer rule.
fn behind_head(
    alloc: Global,
    at: u32,
    label: Option<Span>,
    head: RawAtom,
    symbol: Symbol,
) -> Result<Next, AllocError>
    ensures { IfOk result (λ next. next ≡ behind_head at label head symbol.word) }
{
    match symbol.word {
        Word::Dot => Ok(Next::Item {
            item: head_alone(alloc, label, head),
            may_dot: false,
        }),
        Word::Back => Ok(Next::Go(State::Goal(ClauseSoFar {
            label,
            head,
            goals: RawAtoms::new(alloc),
        }))),
        Word::Star | Word::Lolli => {
            let elem = RawElem::Atom {
                kept: false,
                atom: head,
            };
            after_first(alloc, at, label, elem, symbol)
        }
        _ => Ok(stop(head)),
    }
}

// After a goal.
fn behind_goal(mut clause: ClauseSoFar, goal: RawAtom, symbol: Symbol) -> Result<Next, AllocError>
    ensures { IfOk result (λ next. next ≡ behind_goal (with_goal clause goal) symbol.word) }
{
    clause.goals.push(goal)?;
    match symbol.word {
        Word::Dot => Ok(Next::Item {
            item: RawItem::Clause {
                label: clause.label,
                head: clause.head,
                goals: clause.goals,
            },
            may_dot: false,
        }),
        Word::Back | Word::Comma => Ok(Next::Go(State::Goal(clause))),
        _ => Ok(stop(clause)),
    }
}

// After an atom, by what it was read for.
fn behind_atom(alloc: Global, used: Use, atom: RawAtom, symbol: Symbol) -> Result<Next, AllocError>
    ensures { IfOk result (λ next. next ≡ behind_atom used atom symbol.word) }
{
    match used {
        Use::First { at, label } => behind_head(alloc, at, label, atom, symbol),
        Use::Goal(clause) => behind_goal(clause, atom, symbol),
        Use::Elem { rule, kept } => {
            let rule = with_elem(rule, RawElem::Atom { kept, atom })?;
            behind_elem(alloc, rule, symbol)
        }
        Use::Bag(bag) => after_bag_atom(alloc, bag, atom, symbol),
    }
}

// In an atom.
fn step_atom(
    alloc: Global,
    mut atom: AtomSoFar,
    used: Use,
    symbol: Symbol,
) -> Result<Next, AllocError>
    ensures { IfOk result (λ next. next ≡ step_atom atom used symbol.word symbol.at) }
{
    let Ok(growth) = grow(&mut atom, symbol) else {
        drop(used);
        return Err(AllocError);
    };
    match growth {
        Growth::Going => Ok(Next::Go(State::Atom { atom, used })),
        Growth::Ended => behind_atom(alloc, used, whole_atom(atom), symbol),
        Growth::Broken => Ok(stop(used)),
    }
}

// After names and their colon.
fn names_begun(name: Span, args: Spans) -> Next
    ensures { result ≡ names_begun name args }
{
    if args.len() == 0 {
        return Next::Go(State::Plain(Plain::Labelled { label: name }));
    }
    Next::Go(State::Declared { name, args })
}

// After names.
fn step_names(
    alloc: Global,
    name: Span,
    mut args: Spans,
    symbol: Symbol,
) -> Result<Next, AllocError>
    ensures { IfOk result (λ next. next ≡ step_names name args symbol.word symbol.at) }
{
    match symbol.word {
        Word::Name => {
            args.push(symbol.at)?;
            Ok(Next::Go(State::Names { name, args }))
        }
        Word::Colon => Ok(names_begun(name, args)),
        _ => names_ended(alloc, name, args, symbol),
    }
}

// After names that are an atom.
fn names_ended(alloc: Global, name: Span, args: Spans, symbol: Symbol) -> Result<Next, AllocError>
    ensures { IfOk result (λ next. next
        ≡ step_atom (atom_of_names name args) (Use.First name.from None) symbol.word symbol.at) }
{
    let mut atom = atom_begun(alloc, name);
    add_names(&mut atom, args.as_slice())?;
    let used = Use::First {
        at: name.from,
        label: None,
    };
    step_atom(alloc, atom, used, symbol)
}

// After names and their colon, where they are a declaration.
fn step_declared(name: Span, args: Spans, symbol: Symbol) -> Next
    ensures { result ≡ step_declared name args symbol.word symbol.at }
{
    match symbol.word {
        Word::Pred => declared(name, args, PredKind::Linear),
        Word::Bwd => declared(name, args, PredKind::Back),
        Word::Fact => declared(name, args, PredKind::Fact),
        Word::Name => ending(RawItem::Colon {
            left: name,
            args,
            right: symbol.at,
        }),
        _ => stop(args),
    }
}

// Before the dot of an item.
fn step_ending(item: RawItem, symbol: Symbol) -> Next
    ensures { result ≡ step_ending item symbol.word }
{
    match symbol.word {
        Word::Dot => Next::Item {
            item,
            may_dot: false,
        },
        _ => stop(item),
    }
}

// In the braces of a stage.
fn step_rules(stage: StageSoFar, symbol: Symbol) -> Next
    ensures { result ≡ step_rules stage symbol.word symbol.at }
{
    match symbol.word {
        Word::Name => Next::Go(State::RuleNamed {
            stage,
            label: symbol.at,
        }),
        Word::CloseBrace => Next::Item {
            item: RawItem::Stage {
                name: stage.name,
                rules: stage.rules,
            },
            may_dot: true,
        },
        _ => stop(stage),
    }
}

// After the label of a rule in a stage.
fn rule_named(alloc: Global, stage: StageSoFar, label: Span, symbol: Symbol) -> Next
    ensures { result ≡ rule_named stage label symbol.word }
{
    match symbol.word {
        Word::Colon => Next::Go(State::Rule {
            rule: rule_from(Some(stage), label.from, Some(label), RawSide::new(alloc)),
            place: RulePlace::Before,
        }),
        _ => stop(stage),
    }
}

// Before a goal.
fn before_goal(alloc: Global, clause: ClauseSoFar, symbol: Symbol) -> Next
    ensures { result ≡ before_goal clause symbol.word symbol.at }
{
    match symbol.word {
        Word::Name => atom_for(alloc, symbol.at, Use::Goal(clause)),
        _ => stop(clause),
    }
}

/// What a symbol does.
pub(crate) fn step(alloc: Global, state: State, symbol: Symbol) -> Result<Next, AllocError>
    ensures { IfOk result (λ next. next ≡ step state symbol.word symbol.at) }
{
    match state {
        State::Plain(plain) => step_plain(alloc, plain, symbol),
        State::Names { name, args } => step_names(alloc, name, args, symbol),
        State::Declared { name, args } => Ok(step_declared(name, args, symbol)),
        State::Ending(item) => Ok(step_ending(item, symbol)),
        State::Rules(stage) => Ok(step_rules(stage, symbol)),
        State::RuleNamed { stage, label } => Ok(rule_named(alloc, stage, label, symbol)),
        State::Rule { rule, place } => step_rule(alloc, rule, place, symbol),
        State::Goal(clause) => Ok(before_goal(alloc, clause, symbol)),
        State::Bag { bag, place } => Ok(step_bag(alloc, bag, place, symbol)),
        State::Atom { atom, used } => step_atom(alloc, atom, used, symbol),
    }
}
