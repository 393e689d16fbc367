// The numbers of names in their spaces.
ghost use Rattle.std.specs.Prelude.{◌≡◌, IfOk};
ghost use Rattle.cep_source.specs.Items.{said};
ghost use Rattle.cep_types.specs.Heads.{number_of, sorts_said};

use cep_base::List;
use cep_parse::Span;
use cep_source::{Source, Space};
use std::alloc::AllocError;

// A place as a number. No memory holds so many names that one does not fit.
pub(crate) fn number_at(place: usize) -> Result<u32, AllocError>
    ensures { IfOk result (λ number. number ≡ place) }
{
    match u32::try_from(place) {
        Ok(number) => Ok(number),
        Err(_) => Err(AllocError),
    }
}

/// The number of a name in its space, from 0.
pub fn number(source: &Source, space: Space, name: Span) -> Result<u32, AllocError>
    ensures { IfOk result (λ number. number ≡ number_of source.now space (said source.now name)) }
{
    number_at(source.place(space, source.said(name)).unwrap_or(0))
}

/// The numbers of types by their names.
pub fn kinds(source: &Source, names: &[Span]) -> Result<List<u32>, AllocError>
    ensures { IfOk result (λ kinds. kinds ≡ sorts_said source.now names.now) }
{
    let mut kinds = List::new(source.alloc());
    for name in names {
        let kind = number(source, Space::Sorts, *name)?;
        kinds.push(kind)?;
    }
    Ok(kinds)
}
