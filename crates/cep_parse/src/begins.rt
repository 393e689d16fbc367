// The states in which nothing but names and places are kept.
ghost use Rattle.std.specs.Prelude.{◌≡◌, ◌∷◌, [], IfOk, None, Some};
ghost use Rattle.cep_parse.specs.Machine.{IsFixed, before_elem, begin, labelled, plainly, rule_from, stage_equals, stage_begun, step_ended, step_plain, trace_stage, trace_word, behind_blank, context_equals};

use crate::raw::{RawAtoms, RawElem, RawItem, RawRules, RawSide, RawStart, Span, Spans};
use crate::rules::{after_first, atom_for, before_elem, rule_from};
use crate::state::{BagHome, BagPlace, BagSoFar, Next, Plain, RulePlace, StageSoFar, State, Use};
use crate::symbol::{Symbol, Word};
use cep_base::PredKind;
use std::alloc::{AllocError, Global};

fn plainly(plain: Plain) -> Next
    ensures { result ≡ plainly plain }
{
    Next::Go(State::Plain(plain))
}

/// An item that lacks its dot alone.
pub(crate) fn ending(item: RawItem) -> Next
    ensures { result ≡ Next.Go (State.Ending item) }
{
    Next::Go(State::Ending(item))
}

/// A predicate's declaration.
pub(crate) fn declared(name: Span, args: Spans, kind: PredKind) -> Next
    ensures { result ≡ Next.Go (State.Ending (RawItem.Pred name args kind)) }
{
    ending(RawItem::Pred { name, args, kind })
}

// Before the first element of an outer rule.
fn rule_begun(
    alloc: Global,
    at: u32,
    label: Option<Span>,
    symbol: Symbol,
) -> Result<Next, AllocError>
    ensures { IfOk result (λ next. next
        ≡ before_elem (rule_from None at label []) symbol.word symbol.at) }
{
    let rule = rule_from(None, at, label, RawSide::new(alloc));
    before_elem(alloc, rule, symbol)
}

// Before an item.
fn begin(alloc: Global, symbol: Symbol) -> Result<Next, AllocError>
    ensures { IfOk result (λ next. next ≡ begin symbol.word symbol.at) }
{
    let at = symbol.at.from;
    match symbol.word {
        Word::Name => Ok(Next::Go(State::Names {
            name: symbol.at,
            args: Spans::new(alloc),
        })),
        Word::Blank => Ok(plainly(Plain::Blank { at })),
        Word::Stage => Ok(plainly(Plain::StageWord { at })),
        Word::Context => Ok(plainly(Plain::ContextWord)),
        Word::Interactive => Ok(plainly(Plain::InteractiveWord)),
        Word::Trace => Ok(plainly(Plain::TraceWord { at })),
        _ => rule_begun(alloc, at, None, symbol),
    }
}

// After an item that a dot may end.
fn step_ended(alloc: Global, symbol: Symbol) -> Result<Next, AllocError>
    ensures { IfOk result (λ next. next ≡ step_ended symbol.word symbol.at) }
{
    match symbol.word {
        Word::Dot => Ok(plainly(Plain::Top)),
        _ => begin(alloc, symbol),
    }
}

// After a name and a colon.
fn labelled(alloc: Global, label: Span, symbol: Symbol) -> Result<Next, AllocError>
    ensures { IfOk result (λ next. next ≡ labelled label symbol.word symbol.at) }
{
    let at = label.from;
    match symbol.word {
        Word::Type => Ok(ending(RawItem::Sort { name: label })),
        Word::Pred => Ok(declared(label, Spans::new(alloc), PredKind::Linear)),
        Word::Bwd => Ok(declared(label, Spans::new(alloc), PredKind::Back)),
        Word::Fact => Ok(declared(label, Spans::new(alloc), PredKind::Fact)),
        Word::Name => {
            let label = Some(label);
            Ok(atom_for(alloc, symbol.at, Use::First { at, label }))
        }
        _ => rule_begun(alloc, at, Some(label), symbol),
    }
}

// After `stage` and its name.
fn stage_begun(alloc: Global, at: u32, name: Span, symbol: Symbol) -> Result<Next, AllocError>
    ensures { IfOk result (λ next. next ≡ stage_begun at name symbol.word) }
{
    match symbol.word {
        Word::Equals => Ok(plainly(Plain::StageEquals { name })),
        _ => after_first(alloc, at, None, RawElem::Stage(name), symbol),
    }
}

fn bag_of(alloc: Global, home: BagHome) -> Next
    ensures { result ≡ Next.Go (State.Bag (record { home = home; atoms = [] }) BagPlace.First) }
{
    let atoms = RawAtoms::new(alloc);
    Next::Go(State::Bag {
        bag: BagSoFar { home, atoms },
        place: BagPlace::First,
    })
}

// After `#trace`, its limit and its stage.
fn trace_stage(alloc: Global, at: u32, limit: Option<Span>, stage: Span, symbol: Symbol) -> Next
    ensures { result ≡ trace_stage at limit stage symbol.word symbol.at }
{
    match symbol.word {
        Word::Name => ending(RawItem::Trace {
            at,
            limit,
            stage,
            start: RawStart::Named(symbol.at),
        }),
        Word::OpenBrace => bag_of(alloc, BagHome::Trace { at, limit, stage }),
        _ => Next::Stop,
    }
}

/// In a state that keeps names and places alone.
pub(crate) fn step_plain(alloc: Global, plain: Plain, symbol: Symbol) -> Result<Next, AllocError>
    ensures { IfOk result (λ next. next ≡ step_plain plain symbol.word symbol.at) }
{
    match plain {
        Plain::Ended => step_ended(alloc, symbol),
        Plain::Top => begin(alloc, symbol),
        Plain::Labelled { label } => labelled(alloc, label, symbol),
        Plain::StageNamed { at, name } => stage_begun(alloc, at, name, symbol),
        Plain::TraceStage { at, limit, stage } => {
            Ok(trace_stage(alloc, at, limit, stage, symbol))
        }
        _ => Ok(step_fixed(alloc, plain, symbol)),
    }
}

// In a state after which one or two words alone may stand.
fn step_fixed(alloc: Global, plain: Plain, symbol: Symbol) -> Next
    ensures { IsFixed plain → result ≡ step_plain plain symbol.word symbol.at }
{
    let name = symbol.at;
    match (plain, symbol.word) {
        (Plain::Blank { at }, Word::Colon) => Next::Go(State::Rule {
            rule: rule_from(None, at, None, RawSide::new(alloc)),
            place: RulePlace::Before,
        }),
        (Plain::StageWord { at }, Word::Name) => plainly(Plain::StageNamed { at, name }),
        (Plain::StageEquals { name }, Word::OpenBrace) => {
            let rules = RawRules::new(alloc);
            Next::Go(State::Rules(StageSoFar { name, rules }))
        }
        (Plain::ContextWord, Word::Name) => plainly(Plain::ContextNamed { name }),
        (Plain::ContextNamed { name }, Word::Equals) => plainly(Plain::ContextEquals { name }),
        (Plain::ContextEquals { name }, Word::OpenBrace) => {
            bag_of(alloc, BagHome::Context { name })
        }
        (Plain::InteractiveWord, Word::Name) => ending(RawItem::Interactive { name }),
        (Plain::TraceWord { at }, Word::Blank) => plainly(Plain::TraceLimit { at, limit: None }),
        (Plain::TraceWord { at }, Word::Number) => {
            let limit = Some(name);
            plainly(Plain::TraceLimit { at, limit })
        }
        (Plain::TraceLimit { at, limit }, Word::Name) => {
            let stage = name;
            plainly(Plain::TraceStage { at, limit, stage })
        }
        _ => Next::Stop,
    }
}
