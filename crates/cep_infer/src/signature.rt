// What a text declares of terms, atoms and stages.
ghost use Rattle.std.specs.Prelude.{◌≡◌, map, IfOk};
ghost use Rattle.cep_source.specs.Items.{said, sorts_of, stages_of, cons_of, preds_of};
ghost use Rattle.cep_infer.specs.Meaning.{con_by, pred_by, signature_of, stage_by};

use cep_base::Name;
use cep_parse::Span;
use cep_rule::{Con, Cons, Names, PredDecl, Preds, Signature, Stage, Stages};
use cep_source::{Source, Space};
use cep_types::{kinds, number};
use std::alloc::AllocError;

// The name that the text says at a span.
fn name(source: &Source, span: Span) -> Result<Name, AllocError>
    ensures { IfOk result (λ name. name ≡ said source.now span) }
{
    Name::new(source.alloc(), source.said(span))
}

fn sorts(source: &Source) -> Result<Names, AllocError>
    ensures { IfOk result (λ names. names ≡ map (said source.now) (sorts_of source.now)) }
{
    let mut names = Names::new(source.alloc());
    for span in source.sorts() {
        let name = name(source, *span)?;
        names.push(name)?;
    }
    Ok(names)
}

fn con_decls(source: &Source) -> Result<Cons, AllocError>
    ensures { IfOk result (λ cons. cons ≡ map (con_by source.now) (cons_of source.now)) }
{
    let mut cons = Cons::new(source.alloc());
    for con in source.cons() {
        let con = Con {
            sort: number(source, Space::Sorts, con.sort)?,
            name: name(source, con.name)?,
            args: kinds(source, con.args)?,
        };
        cons.push(con)?;
    }
    Ok(cons)
}

fn pred_decls(source: &Source) -> Result<Preds, AllocError>
    ensures { IfOk result (λ preds. preds ≡ map (pred_by source.now) (preds_of source.now)) }
{
    let mut preds = Preds::new(source.alloc());
    for pred in source.preds() {
        let pred = PredDecl {
            name: name(source, pred.name)?,
            kind: pred.kind,
            args: kinds(source, pred.args)?,
        };
        preds.push(pred)?;
    }
    Ok(preds)
}

// The types, the constructors and the predicates.
pub(crate) fn read_signature(source: &Source) -> Result<Signature, AllocError>
    ensures { IfOk result (λ signature. signature ≡ signature_of source.now) }
{
    Ok(Signature {
        sorts: sorts(source)?,
        cons: con_decls(source)?,
        preds: pred_decls(source)?,
    })
}

// The stages, interactive where the text says so.
pub(crate) fn read_stages(source: &Source) -> Result<Stages, AllocError>
    ensures { IfOk result (λ stages. stages ≡ map (stage_by source.now) (stages_of source.now)) }
{
    let mut stages = Stages::new(source.alloc());
    for span in source.stages() {
        let stage = Stage {
            name: name(source, *span)?,
            interactive: source.is_interactive(*span),
        };
        stages.push(stage)?;
    }
    Ok(stages)
}
