// The rules of a file and their names.
ghost use Rattle.std.specs.Prelude.{◌≡◌, ◌++◌, ◌∷◌, [], map, OnOk};
ghost use Rattle.cep_source.specs.Firsts.{text_alone};
ghost use Rattle.cep_source.specs.Kept.{AreRules, rule_item, in_stage};
ghost use Rattle.cep_source.specs.Spaces.{rule_name, unlabelled_behind};

use crate::items::RuleRef;
use crate::table::Table;
use crate::text::slice_at;
use cep_base::Text;
use cep_parse::{RawRule, Span};
use std::alloc::AllocError;

/// The rules, their names, and how many of them have no label.
pub(crate) struct Rules<'a> {
    pub table: Table<RuleRef<'a>>,
    pub names: Vec<Text>,
    pub unlabelled: u64,
}

// Written out: what holds the rules then drops them by one call.
impl Drop for Rules<'_> {
    fn drop(self) {
        let Rules {
            table,
            names,
            unlabelled: _,
        } = self;
        drop(table);
        drop(names);
    }
}

// Adds the name of a rule to a text: its label, or `qui/` with its number among those without,
// from 1.
fn add_rule_name(
    name: &mut Text,
    text: &[u8],
    label: Option<Span>,
    unlabelled: &mut u64,
) -> Result<(), AllocError>
    ensures name { OnOk result (name.new
        ≡ name.old ++ rule_name (text_alone text.now) unlabelled.old label) }
    ensures count { OnOk result (unlabelled.new ≡ unlabelled_behind unlabelled.old label) }
{
    match label {
        Some(label) => name.append(slice_at(text, label)),
        None => {
            // No memory holds so many rules that the count ends.
            *unlabelled = unlabelled.checked_add(1).ok_or(AllocError)?;
            name.append(b"qui/")?;
            name.number(*unlabelled)
        }
    }
}

impl<'a> Rules<'a> {
    // One rule more.
    pub(crate) fn add_rule(&mut self, text: &[u8], rule: RuleRef<'a>) -> Result<(), AllocError>
        ensures rules { OnOk result (self.new.table.items.items
            ≡ self.old.table.items.items ++ rule.entry ∷ []) }
        ensures named { OnOk result (AreRules text.now self.old → AreRules text.now self.new) }
    {
        let mut name = Text::new(*self.names.allocator());
        add_rule_name(&mut name, text, rule.raw.label, &mut self.unlabelled)?;
        self.table.declare_as(rule, name.bytes(), rule.raw.at)?;
        self.names.push(name)?;
        Ok(())
    }

    // The rules of a stage more.
    pub(crate) fn add_stage(
        &mut self,
        text: &[u8],
        stage: Span,
        raws: &'a [RawRule],
    ) -> Result<(), AllocError>
        ensures rules { OnOk result (map rule_item self.new.table.items.items
            ≡ map rule_item self.old.table.items.items ++ map (in_stage stage) raws.now) }
        ensures named { OnOk result (AreRules text.now self.old → AreRules text.now self.new) }
    {
        for raw in raws {
            let home = Some(stage);
            self.add_rule(text, RuleRef { home, raw })?;
        }
        Ok(())
    }
}
