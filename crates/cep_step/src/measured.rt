ghost use Rattle.std.specs.Prelude.{◌≡◌, map, IfOk};
ghost use Rattle.cep_term.specs.Tree.{atom_of, atom_nodes, atom_depth};
ghost use Rattle.cep_rule.specs.Instances.{full_instance};
ghost use Rattle.cep_step.specs.Sizes.{capped, size_of};

use crate::size::{Size, args_size, term_size};
use cep_rule::Terms;
use cep_term::Atom;
use std::alloc::{AllocError, Global};

// The values of a rule's variables with their sizes, so that a value is measured once, however
// often its variable occurs.
#[derive(Drop)]
pub(crate) struct Measured<'a> {
    pub(crate) values: &'a Terms,
    pub(crate) sizes: Vec<Size>,
    ghost same: { sizes.items ≡ map size_of values.now },
}

impl<'a> Measured<'a> {
    // Measures these values.
    pub(crate) fn new(alloc: Global, values: &'a Terms) -> Result<Measured<'a>, AllocError>
        ensures { IfOk result (λ measured. measured.values.now ≡ values.now) }
    {
        let sizes = sizes_of(alloc, values)?;
        Ok(Measured { values, sizes })
    }

    // The size of the atom's instance by these values.
    pub(crate) fn size(&self, atom: &Atom) -> Size
        ensures nodes { result.nodes
            ≡ capped (atom_nodes (full_instance self.now.values.now (atom_of atom.now))) }
        ensures depth { result.depth
            ≡ capped (atom_depth (full_instance self.now.values.now (atom_of atom.now))) }
    {
        args_size(&atom.args, &self.sizes).under_one()
    }
}

// The sizes of these values.
fn sizes_of(alloc: Global, values: &Terms) -> Result<Vec<Size>, AllocError>
    ensures { IfOk result (λ sizes. sizes.items ≡ map size_of values.now) }
{
    let mut sizes = Vec::new(alloc);
    for v in 0..values.len() {
        sizes.push(term_size(values.get(v), &[]))?;
    }
    Ok(sizes)
}
