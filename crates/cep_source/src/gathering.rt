// What the items of a file declare, kind by kind, in written order.
ghost use Rattle.std.specs.Prelude.{◌++◌, ◌∷◌, [], List, IfOk, OnOk};
ghost use Rattle.cep_parse.specs.declared.raw.RawItem.{RawItem};
ghost use Rattle.cep_source.specs.Kept.{AreKinds, HaveTheirNames};

use crate::items::{RawContext, RawPred, RuleRef, TraceRef};
use crate::rules::Rules;
use crate::table::Table;
use cep_parse::{RawFile, RawItem, Span};
use std::alloc::{AllocError, Global};

/// What a file declares, but for constructors and clauses, which the names of types and predicates
/// tell apart.
pub(crate) struct Kinds<'a> {
    pub sorts: Table<Span>,
    pub preds: Table<RawPred<'a>>,
    pub rules: Rules<'a>,
    pub stages: Table<Span>,
    pub interactives: Table<Span>,
    pub contexts: Table<RawContext<'a>>,
    pub traces: Vec<TraceRef<'a>>,
}

// Written out: what holds the kinds then drops them by one call.
impl Drop for Kinds<'_> {
    fn drop(self) {
        let Kinds {
            sorts,
            preds,
            rules,
            stages,
            interactives,
            contexts,
            traces,
        } = self;
        drop(sorts);
        drop(preds);
        drop(rules);
        drop(stages);
        drop(interactives);
        drop(contexts);
        drop(traces);
    }
}

impl<'a> Kinds<'a> {
    // One item more.
    fn gather(&mut self, text: &[u8], item: &'a RawItem) -> Result<(), AllocError>
        ensures kinds { OnOk result ((before : List RawItem) → AreKinds before self.old
            → AreKinds (before ++ item.entry.now ∷ []) self.new) }
        ensures named { OnOk result (HaveTheirNames text.now self.old
            → HaveTheirNames text.now self.new) }
    {
        match item {
            RawItem::Sort { name } => self.sorts.declare(*name, text, *name),
            RawItem::Pred { name, args, kind } => {
                let (name, args, kind) = (*name, args.as_slice(), *kind);
                self.preds.declare(RawPred { name, args, kind }, text, name)
            }
            RawItem::Outer(raw) => self.rules.add_rule(text, RuleRef { home: None, raw }),
            RawItem::Stage { name, rules } => {
                self.stages.declare(*name, text, *name)?;
                self.rules.add_stage(text, *name, rules.as_slice())
            }
            RawItem::Context { name, atoms } => {
                let (name, atoms) = (*name, atoms.as_slice());
                self.contexts
                    .declare(RawContext { name, atoms }, text, name)
            }
            RawItem::Interactive { name } => self.interactives.declare(*name, text, *name),
            RawItem::Trace {
                at,
                limit,
                stage,
                start,
            } => {
                let (at, limit, stage) = (*at, *limit, *stage);
                self.traces.push(TraceRef {
                    at,
                    limit,
                    stage,
                    start,
                })?;
                Ok(())
            }
            RawItem::Colon { .. } | RawItem::Clause { .. } => Ok(()),
        }
    }

    // What all items declare.
    pub(crate) fn of_file(
        alloc: Global,
        text: &[u8],
        file: &'a RawFile,
    ) -> Result<Kinds<'a>, AllocError>
        ensures kinds { IfOk result (AreKinds file.entry.now) }
        ensures named { IfOk result (HaveTheirNames text.now) }
    {
        let mut kinds = Kinds {
            sorts: Table::empty(alloc),
            preds: Table::empty(alloc),
            rules: Rules {
                table: Table::empty(alloc),
                names: Vec::new(alloc),
                unlabelled: 0,
            },
            stages: Table::empty(alloc),
            interactives: Table::empty(alloc),
            contexts: Table::empty(alloc),
            traces: Vec::new(alloc),
        };
        for item in file.as_slice() {
            kinds.gather(text, item)?;
        }
        Ok(kinds)
    }
}
