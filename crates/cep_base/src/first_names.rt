ghost use Rattle.std.specs.Prelude.{◌≡◌, [], ◌∷◌, ◌++◌, false, not, map, position, slice_get, IfOk, OnOk, OnErr};
ghost use Rattle.std.specs.Str.{bytes_eq};
ghost use Rattle.cep_base.specs.FirstNames.{has_name, under_name, added, names_among};

use crate::{List, Name};
use indexmap::IndexMap;
use std::alloc::{AllocError, Global};
use std::marker::Model;

/// Different names in the order in which they came, each with what it came with first.
pub struct FirstNames<T> {
    entries: IndexMap<Vec<u8>, T>,
}

impl<T> Model for FirstNames<T> {
    ghost use Rattle.std.specs.Prelude.{List, ℕ, map};

    ghost Value = { List (List ℕ × T) };

    ghost view = { λ firsts. map (λ entry. (entry.0.items, entry.1)) firsts.entries.entries };
}

// Written out: what holds names then drops them by one call.
impl<T: Drop> Drop for FirstNames<T> {
    fn drop(self) {
        let FirstNames { entries } = self;
        drop(entries);
    }
}

impl<T: Copy> FirstNames<T> {
    /// No names. It takes no memory.
    pub fn none(alloc: Global) -> FirstNames<T>
        ensures { result ≡ [] }
    {
        FirstNames {
            entries: IndexMap::new(alloc),
        }
    }

    /// Adds a name that is not there at the end with what it comes with, in one look-up. After out
    /// of memory the names are as before.
    pub fn push(&mut self, name: &[u8], with: T) -> Result<(), AllocError>
        requires { has_name self.old name.now ≡ false }
        ensures ok { OnOk result (self.new ≡ self.old ++ (name.now, with) ∷ []) }
        ensures err { OnErr result (self.new ≡ self.old) }
    {
        let name = Vec::from_slice(*self.entries.allocator(), name)?;
        self.entries.insert(name, with)?;
        Ok(())
    }

    /// Adds a name at the end with what it comes with, and answers true, unless it is there. After
    /// out of memory the names are as before.
    pub fn add(&mut self, name: &[u8], with: T) -> Result<bool, AllocError>
        ensures new { IfOk result (λ new. new ≡ not (has_name self.old name.now)) }
        ensures entries { IfOk result (λ new. self.new ≡ added self.old (name.now, with)) }
        ensures err { OnErr result (self.new ≡ self.old) }
    {
        if self.has_name(name) {
            return Ok(false);
        }
        self.push(name, with)?;
        Ok(true)
    }

    /// Whether a name is there.
    pub fn has_name(&self, name: &[u8]) -> bool
        ensures { result ≡ has_name self.now name.now }
    {
        self.entries.contains_key(name)
    }

    /// The number of a name, from 0.
    pub fn number(&self, name: &[u8]) -> Option<usize>
        ensures { result ≡ position (λ entry. bytes_eq name.now entry.0) self.now }
    {
        self.entries.get_index_of(name)
    }

    /// What a name came with.
    pub fn under(&self, name: &[u8]) -> Option<T>
        ensures { result ≡ under_name self.now name.now }
    {
        self.entries.get(name).copied()
    }

    /// What the name with this number came with.
    pub fn at(&self, number: usize) -> Option<T>
        ensures { result ≡ slice_get (map (λ entry. entry.1) self.now) number }
    {
        let entry = self.entries.get_index(number)?;
        Some(*entry.1)
    }

    /// All names.
    pub fn names(&self, alloc: Global) -> Result<List<Name>, AllocError>
        ensures { IfOk result (λ names. names ≡ names_among self.now) }
    {
        let mut names = List::new(alloc);
        for (name, _) in &self.entries {
            names.push(Name::new(alloc, name)?)?;
        }
        Ok(names)
    }

    /// What all names came with.
    pub fn values(&self, alloc: Global) -> Result<Vec<T>, AllocError>
        ensures { IfOk result (λ values. values.items ≡ map (λ entry. entry.1) self.now) }
    {
        let mut values = Vec::new(alloc);
        for (_, with) in &self.entries {
            values.push(*with)?;
        }
        Ok(values)
    }
}
