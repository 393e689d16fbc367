ghost use Rattle.std.specs.Prelude.{◌≡◌, ◌⊎◌, ◌↔◌, ◌++◌, ◌∷◌, [], List, IsTrue};
ghost use Rattle.std.specs.List.{flat_map};
ghost use Rattle.cep_base.specs.declared.place.Pos.{Pos};
ghost use Rattle.cep_ground.specs.Refusals.{StandsBefore};
ghost use Rattle.cep_ground.specs.Earliest.{IsEarliest, marked_among, all_marked};

use cep_base::Pos;
use cep_infer::{PlaceLists, Places};
use cep_modes::Marks;

// Whether one place stands before the other.
fn stands_before(one: Pos, other: Pos) -> bool
    ensures { IsTrue result ↔ StandsBefore one other }
{
    one.line < other.line || (one.line == other.line && one.col < other.col)
}

// The earlier of two places, if there are any.
fn earlier(one: Option<Pos>, other: Option<Pos>) -> Option<Pos>
    ensures { (xs ys : List Pos) → IsEarliest xs one → IsEarliest ys other
        → IsEarliest (xs ++ ys) result }
{
    match (one, other) {
        (Some(pos), Some(next)) => { if stands_before(next, pos) { other } else { one } }
        (Some(_), None) => one,
        (None, _) => other,
    }
}

// The earliest of some places.
fn earliest(places: &Places) -> Option<Pos>
    ensures { IsEarliest places.now result }
{
    let mut first = None;
    for i in 0..places.len() {
        first = earlier(first, Some(*places.get(i)));
    }
    first
}

// The earliest of all places of the lists.
pub(crate) fn earliest_of_all(lists: &PlaceLists) -> Option<Pos>
    ensures { IsEarliest (flat_map (λ places. places) lists.now) result }
{
    let mut first = None;
    for i in 0..lists.len() {
        first = earlier(first, earliest(lists.get(i)));
    }
    first
}

// The place, if it is marked.
fn if_marked(pos: Pos, mark: bool) -> Option<Pos>
    ensures { IsEarliest (marked_among (pos ∷ []) (mark ∷ [])) result }
{
    if mark { Some(pos) } else { None }
}

// The earliest of the places that are marked.
fn earliest_marked(places: &[Pos], marks: &[bool]) -> Option<Pos>
    ensures { IsEarliest (marked_among places.now marks.now) result }
{
    match places {
        [] => None,
        [pos, places @ ..] => match marks {
            [] => None,
            [mark, marks @ ..] => earlier(if_marked(*pos, *mark), earliest_marked(places, marks)),
        },
    }
}

// The earliest of all places of the lists that are marked.
pub(crate) fn earliest_of_marked(lists: &PlaceLists, marks: &Marks) -> Option<Pos>
    ensures { IsEarliest (all_marked lists.now marks.now) result }
{
    let mut first = None;
    for i in 0..lists.len().min(marks.len()) {
        let here = earliest_marked(lists.get(i).as_slice(), marks.get(i).as_slice());
        first = earlier(first, here);
    }
    first
}
