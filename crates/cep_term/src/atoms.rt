ghost use Rattle.std.specs.Prelude.{◌≡◌, ◌<◌, ◌↔◌, [], ◌∷◌, ◌++◌, length, map, slice_get, Some, OnOk, OnErr, IsTrue};
ghost use Rattle.cep_term.specs.Tree.{atom_of};

use crate::term::Atom;
use std::alloc::{AllocError, Global};
use std::marker::Model;

/// A list of atoms, as the right side of a rule or the goals of a clause.
pub struct AtomList {
    atoms: Vec<Atom>,
}

impl Drop for AtomList {
    fn drop(self) {
        let AtomList { atoms } = self;
        drop(atoms);
    }
}

impl Model for AtomList {
    ghost use Rattle.std.specs.Prelude.{List, map};
    ghost use Rattle.std.specs.Coded.{coded_list};
    ghost use Rattle.cep_term.specs.Tree.{AtomTree, atom_of};
    ghost use Rattle.cep_term.specs.Codes.{atom_code};

    ghost Value = { List AtomTree };

    ghost coded = { coded_list atom_code };

    ghost view = { λ list. map atom_of list.atoms.items };
}

impl AtomList {
    /// The list without atoms. It takes no memory.
    pub fn new(alloc: Global) -> AtomList
        ensures { result ≡ [] }
    {
        AtomList {
            atoms: Vec::new(alloc),
        }
    }

    /// How many atoms there are. It takes no memory.
    pub fn len(&self) -> usize
        ensures { result ≡ length self.now }
    {
        self.atoms.len()
    }

    /// Whether there is no atom. It takes no memory.
    pub fn is_empty(&self) -> bool
        ensures { IsTrue result ↔ (self.now ≡ []) }
    {
        self.atoms.is_empty()
    }

    /// The atom at this place, counted from 0. It takes no memory.
    pub fn get(&self, i: usize) -> &Atom
        requires { i < length self.now }
        ensures { slice_get self.now i ≡ Some (atom_of result.now) }
    {
        &self.atoms[i]
    }

    /// The atoms as they are kept. It takes no memory.
    pub fn as_slice(&self) -> &[Atom]
        ensures { map atom_of result.now ≡ self.now }
    {
        self.atoms.as_slice()
    }

    // The atoms themselves.
    pub(crate) fn into_atoms(self) -> Vec<Atom>
        ensures { map atom_of result.items ≡ self }
    {
        let AtomList { atoms } = self;
        atoms
    }

    /// Adds an atom at the end. After out of memory the list is as before, and the atom is gone.
    pub fn push(&mut self, atom: Atom) -> Result<(), AllocError>
        ensures ok { OnOk result (self.new ≡ self.old ++ atom_of atom ∷ []) }
        ensures err { OnErr result (self.new ≡ self.old) }
    {
        self.atoms.push(atom)?;
        Ok(())
    }
}
