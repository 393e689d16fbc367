ghost use Rattle.std.specs.Prelude.{◌≡◌, map, IfOk};
ghost use Rattle.std.specs.Option.{option_map};
ghost use Rattle.cep_refusal.specs.First.{IsFirstOrNone};
ghost use Rattle.cep_source.specs.Items.{said, is_said, interactives_of, sorts_of, cons_of, preds_of, stages_of, rules_of, contexts_of, traces_of, clauses_of};
ghost use Rattle.cep_source.specs.Spaces.{is_in, first_place, names_in, con_named, pred_named, context_named, IsTwice};
ghost use Rattle.cep_source.specs.Uses.{stands_for_context};
ghost use Rattle.cep_source.specs.Starts.{listed_in};
ghost use Rattle.cep_source.specs.Kept.{con_item, pred_item, rule_item, clause_item, context_item, trace_item};
ghost use Rattle.cep_source.specs.declared.space.Space.TheVariants.{Rules};

use crate::clauses::Clauses;
use crate::gathering::Kinds;
use crate::items::{ClauseRef, RawCon, RawContext, RawPred, RuleRef, TraceRef};
use crate::space::Space;
use crate::text::slice_at;
use cep_base::{PredKind, Text};
use cep_parse::{RawAtom, RawFile, Span};
use cep_refusal::Fault;
use std::alloc::{AllocError, Global};
use std::marker::Model;

/// A text and its raw file: what they declare, kind by kind in written order, and where each name
/// is declared first. A rule without a label has the name `qui/` with its number among those
/// without, from 1. The spaces of names are this profile's.
#[derive(Drop)]
pub struct Source<'a> {
    alloc: Global,
    text: &'a [u8],
    file: &'a RawFile,
    kinds: Kinds<'a>,
    clauses: Clauses<'a>,
}

impl<'a> Model for Source<'a> {
    ghost use Rattle.cep_source.specs.Items.{Source};
    ghost use Rattle.cep_source.specs.Codes.{source_code};

    ghost Value = { Source };

    ghost coded = { source_code };

    ghost use Rattle.cep_source.specs.Kept.{source_of, IsGathered};

    ghost view = { source_of };

    ghost invariant = { IsGathered };
}

impl<'a> Source<'a> {
    /// What a text and its raw file declare.
    pub fn of(alloc: Global, text: &'a [u8], file: &'a RawFile) -> Result<Source<'a>, AllocError>
        ensures { IfOk result (λ source. source
            ≡ record { text = text.entry.now; file = file.entry.now }) }
    {
        let kinds = Kinds::of_file(alloc, text, file)?;
        let clauses = Clauses::in_file(alloc, text, file, &kinds)?;
        Ok(Source {
            alloc,
            text,
            file,
            kinds,
            clauses,
        })
    }

    /// Where what is made of the text finds its memory.
    pub fn alloc(&self) -> Global {
        self.alloc
    }

    /// The text.
    pub fn text(&self) -> &'a [u8]
        ensures { result.now ≡ self.now.text }
    {
        self.text
    }

    /// The types.
    pub fn sorts(&self) -> &[Span]
        ensures { result.now ≡ sorts_of self.now }
    {
        &self.kinds.sorts.items
    }

    /// The predicates.
    pub fn preds(&self) -> &[RawPred<'a>]
        ensures { map pred_item result.now ≡ preds_of self.now }
    {
        &self.kinds.preds.items
    }

    /// The constructors.
    pub fn cons(&self) -> &[RawCon<'a>]
        ensures { map con_item result.now ≡ cons_of self.now }
    {
        &self.clauses.cons.items
    }

    /// The clauses, those with a label too.
    pub fn clauses(&self) -> &[ClauseRef<'a>]
        ensures { map clause_item result.now ≡ clauses_of self.now }
    {
        &self.clauses.clauses
    }

    /// The stages.
    pub fn stages(&self) -> &[Span]
        ensures { result.now ≡ stages_of self.now }
    {
        &self.kinds.stages.items
    }

    /// The names of the stages that are said to be interactive.
    pub fn interactives(&self) -> &[Span]
        ensures { result.now ≡ interactives_of self.now }
    {
        &self.kinds.interactives.items
    }

    /// The contexts.
    pub fn contexts(&self) -> &[RawContext<'a>]
        ensures { map context_item result.now ≡ contexts_of self.now }
    {
        &self.kinds.contexts.items
    }

    /// The rules, those of stages and those outside.
    pub fn rules(&self) -> &[RuleRef<'a>]
        ensures { map rule_item result.now ≡ rules_of self.now }
    {
        &self.kinds.rules.table.items
    }

    /// The names of the rules, in the same order.
    pub fn rule_names(&self) -> &[Text]
        ensures { result.now ≡ map (λ named. named.name) (names_in self.now Rules) }
    {
        &self.kinds.rules.names
    }

    /// The traces.
    pub fn traces(&self) -> &[TraceRef<'a>]
        ensures { map trace_item result.now ≡ traces_of self.now }
    {
        &self.kinds.traces
    }

    /// What the text says at a span.
    pub fn said(&self, span: Span) -> &'a [u8]
        ensures { result.now ≡ said self.now span }
    {
        slice_at(self.text, span)
    }

    /// The place of the first declaration of a name among those of its space, from 0.
    pub fn place(&self, space: Space, name: &[u8]) -> Option<usize>
        ensures { result ≡ first_place self.now space name.now }
    {
        let places = match space {
            Space::Sorts => &self.kinds.sorts.places,
            Space::Constructors => &self.clauses.cons.places,
            Space::Predicates => &self.kinds.preds.places,
            Space::Stages => &self.kinds.stages.places,
            Space::Contexts => &self.kinds.contexts.places,
            Space::Rules => &self.kinds.rules.table.places,
        };
        places.under(name)
    }

    /// Whether a space has a name.
    pub fn has(&self, space: Space, name: Span) -> bool
        ensures { result ≡ is_in self.now space (said self.now name) }
    {
        self.place(space, self.said(name)).is_some()
    }

    /// Whether a stage of this name is said to be interactive.
    pub fn is_interactive(&self, name: Span) -> bool
        ensures { result ≡ is_said self.now (interactives_of self.now) (said self.now name) }
    {
        self.kinds.interactives.places.has_name(self.said(name))
    }

    /// The constructor that is declared first of this name.
    pub fn con(&self, name: Span) -> Option<RawCon<'a>>
        ensures { option_map con_item result ≡ con_named self.now (said self.now name) }
    {
        self.clauses.cons.first_named(self.said(name))
    }

    /// The predicate that is declared first of this name.
    pub fn pred(&self, name: Span) -> Option<RawPred<'a>>
        ensures { option_map pred_item result ≡ pred_named self.now (said self.now name) }
    {
        self.kinds.preds.first_named(self.said(name))
    }

    // The context that is declared first of this name.
    fn context(&self, name: Span) -> Option<RawContext<'a>>
        ensures { option_map context_item result ≡ context_named self.now (said self.now name) }
    {
        self.kinds.contexts.first_named(self.said(name))
    }

    /// The atoms of the context of this name, and none where there is no such context.
    pub fn listed(&self, name: Span) -> &'a [RawAtom]
        ensures { result.now ≡ listed_in self.now (said self.now name) }
    {
        self.context(name).map_or(&[], |context| context.atoms)
    }

    /// Whether an atom in the braces of a trace stands for the atoms of a context: a name without
    /// arguments that is no predicate but a context.
    pub fn stands_for_context(&self, atom: &RawAtom) -> bool
        ensures { result ≡ stands_for_context self.now atom.now }
    {
        atom.args == 0
            && !self.has(Space::Predicates, atom.name)
            && self.has(Space::Contexts, atom.name)
    }

    /// Of which kind the predicate of this name is. None where there is no such predicate.
    pub fn kind(&self, name: Span) -> Option<PredKind>
        ensures { result ≡ option_map (λ pred. pred.kind)
            (pred_named self.now (said self.now name)) }
    {
        Some(self.pred(name)?.kind)
    }

    /// The first fault of a name that is declared again, at the later name.
    pub fn twice(&self) -> Option<Fault>
        ensures { IsFirstOrNone (IsTwice self.now) result }
    {
        let kinds = &self.kinds;
        let basics = Fault::first_of(kinds.sorts.twice, kinds.preds.twice);
        let states = Fault::first_of(kinds.stages.twice, kinds.contexts.twice);
        let rest = Fault::first_of(self.clauses.cons.twice, kinds.rules.table.twice);
        Fault::first_of(Fault::first_of(basics, states), rest)
    }
}
