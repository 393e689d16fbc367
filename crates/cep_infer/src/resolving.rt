ghost use Rattle.std.specs.Prelude.{◌≡◌, ◌≤◌, Some, length, slice_get, IfOk, MatchResult};
ghost use Rattle.cep_base.specs.declared.limits.TheConstants.{MOST_TEXT};
ghost use Rattle.std.specs.Option.{option_and_then};
ghost use Rattle.cep_source.specs.Items.{traces_of};
ghost use Rattle.cep_source.specs.Kept.{trace_item};
ghost use Rattle.cep_source.specs.Starts.{turns_said};
ghost use Rattle.cep_infer.specs.Shapes.{IsSource, AreFilled};
ghost use Rattle.cep_infer.specs.Meaning.{AreParts};
ghost use Rattle.cep_infer.specs.Resolved.{IsWellNamed, IsFirstFault, IsResolved, IsSound};

use crate::clauses::read_clauses;
use crate::draft::Draft;
use crate::laws::atoms_are_made_of_tokens;
use crate::places::rule_places;
use crate::rules::read_rules;
use crate::signature::{read_signature, read_stages};
use crate::start::read_start;
use cep_faults::name_fault;
use cep_parse::{RawFile, Span};
use cep_refusal::{Fault, Refusal};
use cep_rule::Parts;
use cep_source::{Source, Space, TraceRef, item_at, turns_said};
use cep_types::{number, type_fault};
use std::alloc::{AllocError, Global};

// The number of turns.
fn turns(source: &Source, limit: Option<Span>) -> Option<u32>
    ensures { result ≡ option_and_then (turns_said source.now.text) limit }
{
    turns_said(source.text(), limit?)
}

// The parts of a program that starts as the first trace says. They are made in an order that leaves
// little to give up where one fails.
fn parts_from(source: &Source, trace: &TraceRef) -> Result<Parts, AllocError>
    requires named { IsWellNamed source.now }
    requires filled { AreFilled source.now }
    requires first { slice_get (traces_of source.now) 0 ≡ Some (trace_item trace.now) }
    ensures { IfOk result (AreParts source.now) }
{
    Ok(Parts {
        turns: turns(source, trace.limit),
        start_stage: number(source, Space::Stages, trace.stage)?,
        stages: read_stages(source)?,
        start: read_start(source, trace)?,
        clauses: read_clauses(source)?,
        rules: read_rules(source)?,
        signature: read_signature(source)?,
    })
}

// The draft of what a text declares, or the first fault of its names or types.
fn drafted_from(source: &Source) -> Result<Result<Draft, Fault>, AllocError>
    requires short { length source.now.text ≤ MOST_TEXT }
    requires filled { AreFilled source.now }
    ensures { IfOk result (λ answer.
        MatchResult answer (IsSound source.now) (IsFirstFault source.now)) }
{
    if let Some(misnamed) = name_fault(source)? {
        return Ok(Err(misnamed));
    }
    if let Some(mistyped) = type_fault(source)? {
        return Ok(Err(mistyped));
    }
    // In a text without wrong names there is a trace.
    let trace = item_at(source.traces(), 0).unwrap();
    let places = rule_places(source)?;
    // The parts come last, so that nothing fails while they are held.
    Ok(Ok(Draft {
        parts: parts_from(source, &trace)?,
        back_places: places.backs,
        right_places: places.unbound,
    }))
}

// The draft of a text, or its first fault.
fn drafted(alloc: Global, text: &[u8], file: &RawFile) -> Result<Result<Draft, Fault>, AllocError>
    requires short { length text.now ≤ MOST_TEXT }
    requires filled { AreFilled (record { text = text.now; file = file.now }) }
    ensures { IfOk result (λ answer.
        MatchResult answer (IsSound (record { text = text.now; file = file.now }))
        (IsFirstFault (record { text = text.now; file = file.now }))) }
{
    let source = Source::of(alloc, text, file)?;
    let drafted = drafted_from(&source);
    drop(source);
    drafted
}

/// What a text declares, as a draft, or the refusal that tells the first fault of its names, or,
/// where nothing is wrong with these, of its types. Each place is a line and a column from 1. That
/// terms are typed, and how predicates, rules and stages are declared, is Ceptre's; the spaces of
/// names, the limits and which fault is the first are this profile's.
pub fn resolve(
    alloc: Global,
    text: &[u8],
    file: &RawFile,
) -> Result<Result<Draft, Refusal>, AllocError>
    requires short { length text.now ≤ MOST_TEXT }
    requires source { IsSource (record { text = text.now; file = file.now }) }
    ensures { IfOk result (IsResolved (record { text = text.now; file = file.now })) }
{
    atoms_are_made_of_tokens();
    let drafted = drafted(alloc, text, file)?;
    Ok(drafted.map_err(|fault| Refusal::of(text, fault)))
}
