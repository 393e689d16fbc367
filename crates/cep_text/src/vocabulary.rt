ghost use Rattle.std.specs.Prelude.{◌≡◌, ℕ, [], IfOk, OnOk, IfSome, IfNone};
ghost use Rattle.cep_rule.specs.Program.{IsProgram, AreNamed};
ghost use Rattle.cep_text.specs.NameTables.{HoldNames};
ghost use Rattle.cep_text.specs.Reading.{con_names, pred_names, rule_names, number_among};
ghost use Rattle.cep_text.specs.StageNames.{IsStageNamed};

use crate::name_table::{fill, find};
use cep_base::FirstNames;
use cep_rule::{Parts, Program};
use std::alloc::{AllocError, Global};
use std::marker::Model;

// The names of a program, by what they name.
struct Tables {
    cons: FirstNames<()>,
    preds: FirstNames<()>,
    stages: FirstNames<()>,
    rules: FirstNames<()>,
}

// Written out: what holds one drops it by one call.
impl Drop for Tables {
    fn drop(self) {
        let Tables {
            cons,
            preds,
            stages,
            rules,
        } = self;
        drop(cons);
        drop(preds);
        drop(stages);
        drop(rules);
    }
}

impl Tables {
    // No names.
    fn new(alloc: Global) -> Tables
        ensures { result ≡ record { cons = []; preds = []; stages = []; rules = [] } }
    {
        Tables {
            cons: FirstNames::none(alloc),
            preds: FirstNames::none(alloc),
            stages: FirstNames::none(alloc),
            rules: FirstNames::none(alloc),
        }
    }

    // Adds the names of a program to tables without names.
    fn fill(&mut self, parts: &Parts) -> Result<(), AllocError>
        requires empty { self.old ≡ record { cons = []; preds = []; stages = []; rules = [] } }
        requires named { AreNamed parts.now }
        ensures { OnOk result (HoldNames parts.now self.new.cons self.new.preds self.new.stages
            self.new.rules) }
    {
        fill(&mut self.cons, &parts.signature.cons)?;
        fill(&mut self.preds, &parts.signature.preds)?;
        fill(&mut self.stages, &parts.stages)?;
        fill(&mut self.rules, &parts.rules)
    }
}

/// A program with tables of the names of its constructors, predicates, stages and rules, by which
/// its texts are read: made once, it finds each name in one look-up.
#[derive(Drop)]
pub struct Vocabulary<'p> {
    program: &'p Program,
    tables: Tables,
}

impl<'p> Model for Vocabulary<'p> {
    ghost use Rattle.cep_rule.specs.declared.parts.Parts.{Parts};
    ghost use Rattle.cep_rule.specs.contracts.parts.Parts as of_parts;

    ghost Value = { Parts };

    ghost coded = { of_parts.the_row.coded };

    ghost use Rattle.cep_text.specs.NameTables.{HoldNames};

    ghost view = { λ vocabulary. vocabulary.program.now };

    ghost invariant = { λ vocabulary. HoldNames vocabulary.program.now vocabulary.tables.cons vocabulary.tables.preds vocabulary.tables.stages vocabulary.tables.rules };
}

impl<'p> Vocabulary<'p> {
    /// The vocabulary of a program. Only out of memory is refused.
    pub fn of(alloc: Global, program: &'p Program) -> Result<Vocabulary<'p>, AllocError>
        ensures { IfOk result (λ vocabulary. vocabulary ≡ program.now) }
    {
        let mut tables = Tables::new(alloc);
        tables.fill(program.parts())?;
        Ok(Vocabulary { program, tables })
    }

    /// The parts of its program, which keep what was asked of them. It takes no memory.
    pub fn parts(&self) -> &'p Parts
        ensures parts { result.now ≡ self.now }
        ensures kept { IsProgram self.now }
    {
        self.program.parts()
    }

    // The number of the constructor of this name.
    pub(crate) fn constructor(&self, name: &[u8]) -> Option<usize>
        ensures { result ≡ number_among (con_names self.now.signature.cons) name.now }
    {
        find(&self.tables.cons, name)
    }

    // The number of the predicate of this name.
    pub(crate) fn predicate(&self, name: &[u8]) -> Option<usize>
        ensures { result ≡ number_among (pred_names self.now.signature.preds) name.now }
    {
        find(&self.tables.preds, name)
    }

    // The number of the rule of this name.
    pub(crate) fn rule(&self, name: &[u8]) -> Option<usize>
        ensures { result ≡ number_among (rule_names self.now.rules) name.now }
    {
        find(&self.tables.rules, name)
    }

    /// The number of the stage of this name, from 0. It takes no memory.
    pub fn stage(&self, name: &[u8]) -> Option<u32>
        ensures some { IfSome result (λ stage. IsStageNamed self.now.stages stage name.now) }
        ensures none { IfNone result ((stage : ℕ)
            → ¬ (IsStageNamed self.now.stages stage name.now)) }
    {
        // What each program keeps is known from here on.
        self.program.parts();
        match find(&self.tables.stages, name) {
            Some(number) => Some(number as u32),
            None => None,
        }
    }
}
