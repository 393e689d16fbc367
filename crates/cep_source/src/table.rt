// What is declared of one kind, and its names.
ghost use Rattle.std.specs.Prelude.{◌≡◌, ◌++◌, ◌∷◌, [], List, OnOk, slice_get};
ghost use Rattle.std.specs.Option.{option_and_then};
ghost use Rattle.cep_parse.specs.declared.raw.Span.{Span};
ghost use Rattle.cep_source.specs.Spaces.{Named};
ghost use Rattle.cep_base.specs.FirstNames.{under_name};
ghost use Rattle.cep_source.specs.Firsts.{IsTable, IsNamed};

use crate::items::item_at;
use crate::text::slice_at;
use cep_base::FirstNames;
use cep_parse::Span;
use cep_refusal::{Fault, Reason};
use std::alloc::{AllocError, Global};

/// Items in the order in which they were declared: of each name the place of its first
/// declaration, from 0, and the first fault of one that is declared again.
pub(crate) struct Table<T> {
    pub items: Vec<T>,
    pub places: FirstNames<usize>,
    pub twice: Option<Fault>,
}

// Written out: what holds a table then drops it by one call.
impl<T: Drop> Drop for Table<T> {
    fn drop(self) {
        let Table {
            items,
            places,
            twice: _,
        } = self;
        drop(items);
        drop(places);
    }
}

impl<T: Copy> Table<T> {
    // No items. It takes no memory.
    pub(crate) fn empty(alloc: Global) -> Table<T>
        ensures items { result.items.items ≡ [] }
        ensures names { IsTable [] result }
    {
        Table {
            items: Vec::new(alloc),
            places: FirstNames::none(alloc),
            twice: None,
        }
    }

    // One item more, of this name, which stands at this place of the text.
    pub(crate) fn declare_as(&mut self, item: T, name: &[u8], at: u32) -> Result<(), AllocError>
        ensures items { OnOk result (self.new.items.items ≡ self.old.items.items ++ item ∷ []) }
        ensures names { OnOk result ((names : List Named) → IsTable names self.old
            → IsTable (names ++ record { name = name.now; at = at } ∷ []) self.new) }
    {
        let place = self.items.len();
        self.items.push(item)?;
        if self.places.add(name, place)? {
            return Ok(());
        }
        let reason = Reason::Twice;
        self.twice = Fault::first_of(self.twice, Some(Fault { reason, at }));
        Ok(())
    }

    // One item more, whose name the text says at this span.
    pub(crate) fn declare(&mut self, item: T, text: &[u8], name: Span) -> Result<(), AllocError>
        ensures items { OnOk result (self.new.items.items ≡ self.old.items.items ++ item ∷ []) }
        ensures named { OnOk result ((span : T → Span) → span item ≡ name
            → IsNamed text.now span self.old → IsNamed text.now span self.new) }
    {
        self.declare_as(item, slice_at(text, name), name.from)
    }

    // The item that was declared first of this name.
    pub(crate) fn first_named(&self, name: &[u8]) -> Option<T>
        ensures { result ≡ option_and_then (slice_get self.now.items.items)
            (under_name self.now.places name.now) }
    {
        item_at(&self.items, self.places.under(name)?)
    }
}
