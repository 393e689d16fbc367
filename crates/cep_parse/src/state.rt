// What was read of an item so far.
use crate::levels::Levels;
use crate::raw::{RawAtom, RawAtoms, RawItem, RawNodes, RawRules, RawSide, Span, Spans};

/// A state in which nothing but names and places are kept. Each is named for what was read last.
#[derive(Clone, Copy)]
pub(crate) enum Plain {
    /// A whole item. A dot may end it still.
    Ended,
    /// Whole items.
    Top,
    /// `a :`
    Labelled {
        label: Span,
    },
    /// `_`
    Blank {
        at: u32,
    },
    /// `stage`
    StageWord {
        at: u32,
    },
    /// `stage a`
    StageNamed {
        at: u32,
        name: Span,
    },
    /// `stage a =`
    StageEquals {
        name: Span,
    },
    /// `context`
    ContextWord,
    /// `context a`
    ContextNamed {
        name: Span,
    },
    /// `context a =`
    ContextEquals {
        name: Span,
    },
    /// `#interactive`
    InteractiveWord,
    /// `#trace`
    TraceWord {
        at: u32,
    },
    /// `#trace _`
    TraceLimit {
        at: u32,
        limit: Option<Span>,
    },
    /// `#trace _ a`
    TraceStage {
        at: u32,
        limit: Option<Span>,
        stage: Span,
    },
}

/// An atom of which so much was read.
#[derive(Drop)]
pub(crate) struct AtomSoFar {
    pub(crate) name: Span,
    pub(crate) args: u32,
    pub(crate) nodes: RawNodes,
    pub(crate) levels: Levels,
}

/// A stage of which some rules were read.
#[derive(Drop)]
pub(crate) struct StageSoFar {
    pub(crate) name: Span,
    pub(crate) rules: RawRules,
}

/// A rule of which some elements were read: on the left while there is no right side.
#[derive(Drop)]
pub(crate) struct RuleSoFar {
    pub(crate) stage: Option<StageSoFar>,
    pub(crate) at: u32,
    pub(crate) label: Option<Span>,
    pub(crate) left: RawSide,
    pub(crate) right: Option<RawSide>,
}

/// Where in a rule.
#[derive(Clone, Copy)]
pub(crate) enum RulePlace {
    /// An element is to come.
    Before,
    /// After `$`.
    Kept,
    /// After `(`.
    Unit,
    /// After `stage`.
    Stage,
    /// After an element.
    Behind,
}

/// A clause of which some goals were read.
#[derive(Drop)]
pub(crate) struct ClauseSoFar {
    pub(crate) label: Option<Span>,
    pub(crate) head: RawAtom,
    pub(crate) goals: RawAtoms,
}

/// What a bag belongs to.
#[derive(Clone, Copy)]
pub(crate) enum BagHome {
    Context {
        name: Span,
    },
    Trace {
        at: u32,
        limit: Option<Span>,
        stage: Span,
    },
}

/// A bag of which some atoms were read.
#[derive(Drop)]
pub(crate) struct BagSoFar {
    pub(crate) home: BagHome,
    pub(crate) atoms: RawAtoms,
}

/// Where in a bag.
#[derive(Clone, Copy)]
pub(crate) enum BagPlace {
    /// After `{`.
    First,
    /// After `,` or `*`.
    Next,
    /// After `(`.
    Unit,
    /// After an element.
    Behind,
}

/// What an atom is read for.
#[derive(Drop)]
pub(crate) enum Use {
    /// The first atom of a clause or of an outer rule, after its label if it has one.
    First { at: u32, label: Option<Span> },
    Goal(ClauseSoFar),
    Elem { rule: RuleSoFar, kept: bool },
    Bag(BagSoFar),
}

/// A state of the reading.
#[derive(Drop)]
pub(crate) enum State {
    Plain(Plain),
    /// `a b c`
    Names { name: Span, args: Spans },
    /// `a b c :`
    Declared { name: Span, args: Spans },
    /// All of an item but its dot.
    Ending(RawItem),
    /// `stage a = {` and rules.
    Rules(StageSoFar),
    /// The label of a rule in a stage.
    RuleNamed { stage: StageSoFar, label: Span },
    Rule { rule: RuleSoFar, place: RulePlace },
    /// A goal is to come.
    Goal(ClauseSoFar),
    Bag { bag: BagSoFar, place: BagPlace },
    Atom { atom: AtomSoFar, used: Use },
}

/// What a symbol does.
#[derive(Drop)]
pub(crate) enum Next {
    /// The item goes on.
    Go(State),
    /// An item is whole. A dot may end it still, or not.
    Item { item: RawItem, may_dot: bool },
    /// No item goes on so.
    Stop,
}

/// What a symbol did to an atom.
#[derive(Clone, Copy)]
pub(crate) enum Growth {
    /// The atom goes on.
    Going,
    /// It was whole already, and the symbol stands after it.
    Ended,
    /// No atom goes on so, and it is not whole.
    Broken,
}
