// The clauses of a text.
ghost use Rattle.std.specs.Prelude.{◌∷◌, IfOk};
ghost use Rattle.std.specs.List.{AllByRecursion, AllZip};
ghost use Rattle.cep_rule.specs.Patterns.{clause_of};
ghost use Rattle.cep_source.specs.Items.{clauses_of};
ghost use Rattle.cep_source.specs.Kept.{clause_item};
ghost use Rattle.cep_types.specs.Sites.{clause_scope};
ghost use Rattle.cep_infer.specs.Meaning.{IsClauseBy};
ghost use Rattle.cep_infer.specs.Shapes.{IsFilled, AreFilled, AreCovered};
ghost use Rattle.cep_infer.specs.Resolved.{IsWellNamed};

use crate::atoms::read_atoms;
use crate::terms::read_atom;
use cep_rule::{Clause, Clauses};
use cep_source::{ClauseRef, Source};
use cep_types::{clause_variables, variable_kinds};
use std::alloc::AllocError;

fn clause(source: &Source, item: &ClauseRef) -> Result<Clause, AllocError>
    requires filled { AllByRecursion IsFilled (clause_scope (clause_item item.now)) }
    requires covered { AreCovered source.now (clause_scope (clause_item item.now)) }
    ensures { IfOk result (λ clause.
        IsClauseBy source.now (clause_item item.now) (clause_of clause)) }
{
    let variables = clause_variables(source, item)?;
    let mut blanks = 0;
    Ok(Clause {
        vars: variables.firsts.names(source.alloc())?,
        kinds: variable_kinds(source, &variables)?,
        head: read_atom(source, &variables, &mut blanks, item.head)?,
        goals: read_atoms(source, &variables, item.goals, blanks)?,
    })
}

// The clauses in written order, those with a label too.
#[tactic(auto, using(crate::proofs::RulesInTurn::clause_terms))]
pub(crate) fn read_clauses(source: &Source) -> Result<Clauses, AllocError>
    requires named { IsWellNamed source.now }
    requires filled { AreFilled source.now }
    ensures { IfOk result (λ clauses.
        AllZip (IsClauseBy source.now) (clauses_of source.now) clauses) }
{
    let mut clauses = Clauses::new(source.alloc());
    for item in source.clauses() {
        let clause = clause(source, item)?;
        clauses.push(clause)?;
    }
    Ok(clauses)
}
