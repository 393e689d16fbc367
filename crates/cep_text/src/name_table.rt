ghost use Rattle.std.specs.Prelude.{◌≡◌, List, ℕ, [], map, OnOk};
ghost use Rattle.cep_base.specs.FirstNames.{names_among};
ghost use Rattle.cep_rule.specs.Names.{AllDiffer};
ghost use Rattle.cep_text.specs.Reading.{number_among};

use cep_base::{FirstNames, List, Name};
use cep_rule::{Con, PredDecl, Rule, Stage};
use std::alloc::AllocError;

// What a program declares by a name.
pub(crate) trait Named {
    ghost name_of: { Self → List ℕ };

    fn name(&self) -> &Name
        ensures { result.now ≡ name_of self.now };
}

impl Named for Con {
    ghost name_of = { λ con. con.name };

    fn name(&self) -> &Name {
        &self.name
    }
}

impl Named for PredDecl {
    ghost name_of = { λ pred. pred.name };

    fn name(&self) -> &Name {
        &self.name
    }
}

impl Named for Stage {
    ghost name_of = { λ stage. stage.name };

    fn name(&self) -> &Name {
        &self.name
    }
}

impl Named for Rule {
    ghost name_of = { λ rule. rule.name };

    fn name(&self) -> &Name {
        &self.name
    }
}

// Adds the names of all items, in order, to a table without names.
pub(crate) fn fill<T: Named>(table: &mut FirstNames<()>, items: &List<T>) -> Result<(), AllocError>
    requires empty { table.old ≡ [] }
    requires differ { AllDiffer (map T.name_of items.now) }
    ensures { OnOk result (names_among table.new ≡ map T.name_of items.now) }
{
    for i in 0..items.len() {
        table.push(items.get(i).name().bytes(), ())?;
    }
    Ok(())
}

// The number of a name, from 0.
pub(crate) fn find(table: &FirstNames<()>, name: &[u8]) -> Option<usize>
    ensures { result ≡ number_among (names_among table.now) name.now }
{
    table.number(name)
}
