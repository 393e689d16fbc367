// The lines and columns of many places.
ghost use Rattle.std.specs.Prelude.{◌≡◌, ◌<◌, ◌≤◌, ◌+◌, ◌^◌, ◌++◌, ◌∷◌, [], ℕ, List, length, take, not, map, filter, IfOk, OnOk};
ghost use Rattle.cep_base.specs.declared.limits.TheConstants.{MOST_TEXT};
ghost use Rattle.cep_lex.specs.Places.{IsPlaceAfter};
ghost use Rattle.cep_source.specs.Items.{rules_of};
ghost use Rattle.cep_source.specs.Variables.{occurrences_from, blanks_after};
ghost use Rattle.cep_source.specs.Kept.{rule_item};
ghost use Rattle.cep_base.specs.FirstNames.{has_name};
ghost use Rattle.cep_infer.specs.Places.{IsReached, ArePlaces, ArePlaceLists, backs_at, unbound_at};

use crate::draft::{PlaceLists, Places};
use cep_base::{Pos, PredKind};
use cep_lex::place_after;
use cep_parse::RawNode;
use cep_source::{RuleRef, Source, Variables, blanks_behind, variable_at};
use std::alloc::AllocError;

/// A place in a text, in bytes from the front, and its line and column.
#[derive(Clone, Copy, Drop)]
pub(crate) struct Reached {
    pub at: usize,
    pub pos: Pos,
}

const FRONT: Reached = Reached {
    at: 0,
    pos: Pos { line: 1, col: 1 },
};

/// For each rule the places of its backward premises, and of what is unbound on its right side.
#[derive(Drop)]
pub(crate) struct RulePlaces {
    pub backs: PlaceLists,
    pub unbound: PlaceLists,
}

// The line and column of a place, from one that was reached, or from the front where it lies
// before.
fn reach(text: &[u8], from: Reached, at: u32) -> Reached
    requires short { length text.now ≤ MOST_TEXT }
    requires reached { IsReached text.now from }
    ensures reached { IsReached text.now result }
    ensures there { IsPlaceAfter (take at text.now) result.pos }
{
    let to = (at as usize).min(text.len());
    let start = if from.at <= to { from } else { FRONT };
    let pos = place_after(start.pos, &text[start.at..to]);
    Reached { at: to, pos }
}

// The lines and columns of places.
fn place_all(source: &Source, reached: &mut Reached, ats: &[u32]) -> Result<Places, AllocError>
    requires short { length source.now.text ≤ MOST_TEXT }
    requires reached { IsReached source.now.text reached.old }
    ensures places { IfOk result (λ places. ArePlaces source.now.text ats.now places) }
    ensures reached { OnOk result (IsReached source.now.text reached.new) }
{
    let text = source.text();
    let mut places = Places::new(source.alloc());
    for at in ats {
        *reached = reach(text, *reached, *at);
        places.push(reached.pos)?;
    }
    Ok(places)
}

// The places of the backward premises of a rule.
fn backs_at(source: &Source, rule: &RuleRef) -> Result<Vec<u32>, AllocError>
    ensures { IfOk result (λ ats. ats.items ≡ backs_at source.now (rule_item rule.now)) }
{
    let mut ats = Vec::new(source.alloc());
    for elem in rule.raw.left.as_slice() {
        let Some(atom) = elem.atom() else {
            continue;
        };
        if source.kind(atom.name).is_some_and(PredKind::is_backward) {
            ats.push(atom.name.from)?;
        }
    }
    Ok(ats)
}

// Adds the places of the variables among nodes that are not on the left, and of the blanks.
fn push_unbound(
    source: &Source,
    left: &Variables,
    blanks: &mut u64,
    nodes: &[RawNode],
    ats: &mut Vec<u32>,
) -> Result<(), AllocError>
    ensures ats { OnOk result (ats.new.items
        ≡ ats.old.items ++ map (λ occurrence. occurrence.at.from)
        (filter (λ occurrence. not (has_name left.now.firsts occurrence.name))
        (occurrences_from source.now blanks.old nodes.now))) }
    ensures blanks { OnOk result (blanks.new ≡ blanks_after blanks.old nodes.now) }
{
    for node in nodes {
        let name = variable_at(source, *blanks, node)?;
        *blanks = blanks_behind(*blanks, node.kind)?;
        if name.is_some_and(|name| !left.firsts.has_name(name.bytes())) {
            ats.push(node.at.from)?;
        }
    }
    Ok(())
}

// The places of what is unbound on the right side of a rule.
fn unbound_at(source: &Source, rule: &RuleRef) -> Result<Vec<u32>, AllocError>
    ensures { IfOk result (λ ats. ats.items ≡ unbound_at source.now (rule_item rule.now)) }
{
    let left = Variables::of_side(source, rule.raw.left.as_slice())?;
    let mut blanks = left.blanks;
    let mut ats = Vec::new(source.alloc());
    for elem in rule.raw.right.as_slice() {
        push_unbound(source, &left, &mut blanks, elem.nodes(), &mut ats)?;
    }
    Ok(ats)
}

// Adds the lines and columns of places to lists.
fn push_places(
    source: &Source,
    reached: &mut Reached,
    ats: Vec<u32>,
    lists: &mut PlaceLists,
) -> Result<(), AllocError>
    requires short { length source.now.text ≤ MOST_TEXT }
    requires reached { IsReached source.now.text reached.old }
    ensures lists { OnOk result ((before : List (List ℕ))
        → ArePlaceLists source.now.text before lists.old
        → ArePlaceLists source.now.text (before ++ ats.items ∷ []) lists.new) }
    ensures reached { OnOk result (IsReached source.now.text reached.new) }
{
    let places = place_all(source, reached, &ats)?;
    lists.push(places)?;
    Ok(())
}

impl RulePlaces {
    // Adds those of a rule.
    fn add(
        &mut self,
        source: &Source,
        reached: &mut Reached,
        rule: &RuleRef,
    ) -> Result<(), AllocError>
        requires short { length source.now.text ≤ MOST_TEXT }
        requires reached { IsReached source.now.text reached.old }
        ensures backs { OnOk result ((before : List (List ℕ))
            → ArePlaceLists source.now.text before self.old.backs
            → ArePlaceLists source.now.text
            (before ++ backs_at source.now (rule_item rule.now) ∷ []) self.new.backs) }
        ensures unbound { OnOk result ((before : List (List ℕ))
            → ArePlaceLists source.now.text before self.old.unbound
            → ArePlaceLists source.now.text
            (before ++ unbound_at source.now (rule_item rule.now) ∷ []) self.new.unbound) }
        ensures reached { OnOk result (IsReached source.now.text reached.new) }
    {
        let backs = backs_at(source, rule)?;
        push_places(source, reached, backs, &mut self.backs)?;
        let unbound = unbound_at(source, rule)?;
        push_places(source, reached, unbound, &mut self.unbound)?;
        Ok(())
    }
}

// For each rule, in written order, the places that its draft keeps.
pub(crate) fn rule_places(source: &Source) -> Result<RulePlaces, AllocError>
    requires { length source.now.text ≤ MOST_TEXT }
    ensures backs { IfOk result (λ places.
        ArePlaceLists source.now.text
        (map (backs_at source.now) (rules_of source.now)) places.backs) }
    ensures unbound { IfOk result (λ places.
        ArePlaceLists source.now.text
        (map (unbound_at source.now) (rules_of source.now)) places.unbound) }
{
    let mut reached = FRONT;
    let mut places = RulePlaces {
        backs: PlaceLists::new(source.alloc()),
        unbound: PlaceLists::new(source.alloc()),
    };
    for rule in source.rules() {
        places.add(source, &mut reached, rule)?;
    }
    Ok(places)
}
