// Which type is wanted of each term of an atom.
ghost use Rattle.std.specs.Prelude.{◌≡◌, [], ◌∷◌, List, None, map, unwrap_or, IfOk, IfSome, MatchOption};
ghost use Rattle.std.specs.Option.{option_map};
ghost use Rattle.cep_parse.specs.declared.raw.RawNode.{RawNode};
ghost use Rattle.cep_source.specs.Items.{said};
ghost use Rattle.cep_types.specs.Clashes.{type_at};
ghost use Rattle.cep_types.specs.Sites.{node_types, pred_types, sites_from};

use cep_base::Stack;
use cep_parse::{RawKind, RawNode, Span};
use cep_source::{RawCon, Source};
use std::alloc::AllocError;

/// What is wanted of a term, and what its constructor says of it.
#[derive(Clone, Copy, Drop)]
pub(crate) struct Expected {
    pub wants: Span,
    pub sort: Option<Span>,
}

// The constructor at a node.
fn con_at<'a>(source: &Source<'a>, node: &RawNode) -> Option<RawCon<'a>>
    ensures sort { option_map (λ con. said source.now con.sort) result
        ≡ type_at source.now (λ name. None) node.now.kind node.now.at }
    ensures args { map (said source.now) (unwrap_or (option_map (λ con. con.args.now) result) [])
        ≡ node_types source.now node.now.kind node.now.at }
{
    match node.kind {
        RawKind::App => source.con(node.at),
        RawKind::Var | RawKind::Blank => None,
    }
}

// The types that a predicate wants of its arguments.
fn pred_types<'a>(source: &Source<'a>, name: Span) -> &'a [Span]
    ensures { map (said source.now) result.now ≡ pred_types source.now (said source.now name) }
{
    match source.pred(name) {
        Some(pred) => pred.args,
        None => &[],
    }
}

// The types that are wanted of the terms of an atom of this predicate.
pub(crate) fn pending(source: &Source, name: Span) -> Result<Stack<Span>, AllocError>
    ensures { IfOk result (λ pending. map (said source.now) pending
        ≡ pred_types source.now (said source.now name)) }
{
    let mut pending = Stack::new(source.alloc());
    pending.push_all(pred_types(source, name))?;
    Ok(pending)
}

// What is wanted of the next node, and its constructor's type, or none where nothing is wanted.
pub(crate) fn site(
    source: &Source,
    pending: &mut Stack<Span>,
    node: &RawNode,
) -> Result<Option<Expected>, AllocError>
    ensures wants { (nodes : List RawNode) → IfOk result (λ site. MatchOption site
        ((pending.old ≡ []) × (pending.new ≡ []))
        (λ site. sites_from source.now (map (said source.now) pending.old) (node.now ∷ nodes)
        ≡ record { node = node.now; wants = said source.now site.wants }
        ∷ sites_from source.now (map (said source.now) pending.new) nodes)) }
    ensures sort { IfOk result (λ site. IfSome site (λ site.
        option_map (said source.now) site.sort
        ≡ type_at source.now (λ name. None) node.now.kind node.now.at)) }
{
    let Some(wants) = pending.pop() else {
        return Ok(None);
    };
    let Some(con) = con_at(source, node) else {
        return Ok(Some(Expected { wants, sort: None }));
    };
    pending.push_all(con.args)?;
    Ok(Some(Expected {
        wants,
        sort: Some(con.sort),
    }))
}
