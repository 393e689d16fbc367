// The uses of names.
ghost use Rattle.std.specs.Prelude.{◌≡◌, Some, false};
ghost use Rattle.std.specs.List.{flat_map};
ghost use Rattle.cep_refusal.specs.First.{wrong, first_in};
ghost use Rattle.cep_source.specs.Items.{said};
ghost use Rattle.cep_faults.specs.Faults.{is_somewhere, lack_faults, use_faults, arity_faults};

use cep_parse::Span;
use cep_refusal::{Fault, FirstFault, Reason};
use cep_source::{Source, Space};

// This is wrong, at this place.
pub(crate) fn wrong(reason: Reason, at: u32) -> Option<Fault>
    ensures { result ≡ Some (wrong reason at) }
{
    Some(Fault { reason, at })
}

// Whether some space has the name.
fn is_somewhere(source: &Source, name: Span) -> bool
    ensures { result ≡ is_somewhere source.now (said source.now name) }
{
    source.has(Space::Sorts, name)
        || source.has(Space::Constructors, name)
        || source.has(Space::Predicates, name)
        || source.has(Space::Stages, name)
        || source.has(Space::Contexts, name)
        || source.has(Space::Rules, name)
}

// The fault of a name that is used, by the space in which it is looked for.
pub(crate) fn use_fault(source: &Source, space: Space, name: Span) -> Option<Fault>
    ensures { result ≡ first_in (use_faults source.now space name) }
{
    if source.has(space, name) {
        return None;
    }
    lack_fault(source, name)
}

// The fault of a name that the space has not in which it is looked for.
pub(crate) fn lack_fault(source: &Source, name: Span) -> Option<Fault>
    ensures { result ≡ first_in (lack_faults false
        (is_somewhere source.now (said source.now name)) name.from) }
{
    let reason = if is_somewhere(source, name) {
        Reason::WrongKind
    } else {
        Reason::Unknown
    };
    wrong(reason, name.from)
}

// The first fault of names that are looked for in one space.
pub(crate) fn uses_fault(source: &Source, space: Space, names: &[Span]) -> Option<Fault>
    ensures { result ≡ first_in (flat_map (use_faults source.now space) names.now) }
{
    let mut first = FirstFault::none();
    for name in names {
        first.note(use_fault(source, space, *name));
    }
    first.found()
}

// Another number of arguments than is declared.
pub(crate) fn arity_fault(arity: usize, args: u32, at: u32) -> Option<Fault>
    ensures { result ≡ first_in (arity_faults (Some arity) args at) }
{
    if args as usize == arity {
        return None;
    }
    wrong(Reason::WrongArity, at)
}
