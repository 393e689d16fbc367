// The constructors and the clauses of a file: what `x a : y.` is, the names tell.
ghost use Rattle.std.specs.Prelude.{◌≡◌, ◌++◌, ◌∷◌, [], List, IfOk, OnOk};
ghost use Rattle.cep_parse.specs.declared.raw.RawItem.{RawItem};
ghost use Rattle.cep_source.specs.Items.{is_labelled};
ghost use Rattle.cep_source.specs.Kept.{AreKinds, HaveTheirNames, AreClausesAmong};

use crate::gathering::Kinds;
use crate::items::{AtomRef, ClauseRef, RawCon};
use crate::table::Table;
use crate::text::slice_at;
use cep_parse::{RawFile, RawItem, Span, Spans};
use std::alloc::{AllocError, Global};

/// The constructors and the clauses, in written order.
pub(crate) struct Clauses<'a> {
    pub cons: Table<RawCon<'a>>,
    pub clauses: Vec<ClauseRef<'a>>,
}

// Written out: what holds the clauses then drops them by one call.
impl Drop for Clauses<'_> {
    fn drop(self) {
        let Clauses { cons, clauses } = self;
        drop(cons);
        drop(clauses);
    }
}

// Whether `x a : y.` is a clause with a label, and no constructor: it has no arguments, and y is a
// predicate and no type.
fn is_labelled(text: &[u8], kinds: &Kinds, args: &Spans, right: Span) -> bool
    ensures { (file : List RawItem) → AreKinds file kinds.now → HaveTheirNames text.now kinds.now
        → result ≡ is_labelled (record { text = text.now; file = file }) args.now right }
{
    let name = slice_at(text, right);
    args.len() == 0 && !kinds.sorts.places.has_name(name) && kinds.preds.places.has_name(name)
}

impl<'a> Clauses<'a> {
    // One item more, where the names of types and predicates are known.
    fn sort_out(&mut self, text: &[u8], kinds: &Kinds, item: &'a RawItem) -> Result<(), AllocError>
        ensures { OnOk result ((file before : List RawItem) → AreKinds file kinds.now
            → HaveTheirNames text.now kinds.now
            → AreClausesAmong (record { text = text.now; file = file }) before self.old
            → AreClausesAmong (record { text = text.now; file = file })
            (before ++ item.entry.now ∷ []) self.new) }
    {
        match item {
            RawItem::Clause { head, goals, .. } => {
                let head = AtomRef::of_raw(head);
                let goals = goals.as_slice();
                self.clauses.push(ClauseRef { head, goals })?;
            }
            RawItem::Colon { args, right, .. } if is_labelled(text, kinds, args, *right) => {
                let head = AtomRef {
                    name: *right,
                    args: 0,
                    nodes: &[],
                };
                self.clauses.push(ClauseRef { head, goals: &[] })?;
            }
            RawItem::Colon { left, args, right } => {
                let (name, args, sort) = (*left, args.as_slice(), *right);
                let con = RawCon { name, args, sort };
                self.cons.declare(con, text, name)?;
            }
            _ => (),
        }
        Ok(())
    }

    // Those of all items.
    pub(crate) fn in_file(
        alloc: Global,
        text: &[u8],
        file: &'a RawFile,
        kinds: &Kinds,
    ) -> Result<Clauses<'a>, AllocError>
        requires kinds { AreKinds file.now kinds.now }
        requires named { HaveTheirNames text.now kinds.now }
        ensures { IfOk result (AreClausesAmong
            (record { text = text.now; file = file.entry.now }) file.entry.now) }
    {
        let mut clauses = Clauses {
            cons: Table::empty(alloc),
            clauses: Vec::new(alloc),
        };
        for item in file.as_slice() {
            clauses.sort_out(text, kinds, item)?;
        }
        Ok(clauses)
    }
}
