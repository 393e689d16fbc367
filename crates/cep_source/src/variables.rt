ghost use Rattle.std.specs.Prelude.{◌≡◌, ◌∷◌, map, option_to_list, IfOk, OnOk};
ghost use Rattle.cep_parse.specs.Raw.{atoms_of};
ghost use Rattle.cep_source.specs.Variables.{occurrence_at, blanks_behind};
ghost use Rattle.cep_source.specs.Met.{none_met, met_site, met_nodes, AreVariables};
ghost use Rattle.cep_source.specs.Kept.{clause_item};

use crate::items::ClauseRef;
use crate::source::Source;
use cep_base::{FirstNames, Text};
use cep_parse::{RawElem, RawKind, RawNode, Span};
use std::alloc::{AllocError, Global};

/// The variables that were met so far, each with the span with which it was met first, and the
/// number of blanks. Each blank is a variable of its own.
#[derive(Drop)]
pub struct Variables {
    pub firsts: FirstNames<Span>,
    pub blanks: u64,
}

/// How many blanks there are after a node, where so many stand before it.
pub fn blanks_behind(blanks: u64, kind: RawKind) -> Result<u64, AllocError>
    ensures { IfOk result (λ behind. behind ≡ blanks_behind blanks kind) }
{
    match kind {
        // No memory holds so many nodes that the count ends.
        RawKind::Blank => blanks.checked_add(1).ok_or(AllocError),
        RawKind::App | RawKind::Var => Ok(blanks),
    }
}

/// The name of the variable at a node, where so many blanks stand before it: what is written, or
/// for a blank `_` and its number from 1. None at a constructor.
pub fn variable_at(source: &Source, blanks: u64, node: &RawNode) -> Result<Option<Text>, AllocError>
    ensures { IfOk result (λ name. option_to_list name
        ≡ map (λ occurrence. occurrence.name)
        (occurrence_at source.now blanks node.now.at node.now.kind)) }
{
    let mut name = Text::new(source.alloc());
    match node.kind {
        RawKind::App => return Ok(None),
        RawKind::Var => name.append(source.said(node.at))?,
        RawKind::Blank => {
            name.append(b"_")?;
            name.number(blanks_behind(blanks, RawKind::Blank)?)?;
        }
    }
    Ok(Some(name))
}

impl Variables {
    /// None were met. It takes no memory.
    pub fn unmet(alloc: Global) -> Variables
        ensures { result ≡ none_met }
    {
        Variables {
            firsts: FirstNames::none(alloc),
            blanks: 0,
        }
    }

    /// Meets the variable at a node, with a span.
    pub fn meet(&mut self, source: &Source, node: &RawNode, with: Span) -> Result<(), AllocError>
        ensures { OnOk result (self.new
            ≡ met_site source.now self.old node.now.kind node.now.at with) }
    {
        if let Some(name) = variable_at(source, self.blanks, node)? {
            self.firsts.add(name.bytes(), with)?;
        }
        self.blanks = blanks_behind(self.blanks, node.kind)?;
        Ok(())
    }

    // Meets the variables at nodes, each with its own place.
    fn meet_nodes(&mut self, source: &Source, nodes: &[RawNode]) -> Result<(), AllocError>
        ensures { OnOk result (self.new ≡ met_nodes source.now self.old nodes.now) }
    {
        for node in nodes {
            self.meet(source, node, node.at)?;
        }
        Ok(())
    }

    /// The variables of a side, each with its first place.
    pub fn of_side(source: &Source, side: &[RawElem]) -> Result<Variables, AllocError>
        ensures { IfOk result (AreVariables source.now (atoms_of side.now)) }
    {
        let mut variables = Variables::unmet(source.alloc());
        for elem in side {
            variables.meet_nodes(source, elem.nodes())?;
        }
        Ok(variables)
    }

    /// The variables of a clause, each with its first place.
    pub fn of_clause(source: &Source, clause: &ClauseRef) -> Result<Variables, AllocError>
        ensures { IfOk result (AreVariables source.now
            ((clause_item clause.now).head ∷ (clause_item clause.now).goals)) }
    {
        let mut variables = Variables::unmet(source.alloc());
        variables.meet_nodes(source, clause.head.nodes)?;
        for goal in clause.goals {
            variables.meet_nodes(source, goal.nodes.as_slice())?;
        }
        Ok(variables)
    }
}
