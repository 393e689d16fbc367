ghost use Rattle.std.specs.Prelude.{◌≡◌, ℕ, ◌<◌, [], length, slice_get, Some, IfOk, OnErr};
ghost use Rattle.std.specs.List.{AllByRecursion};
ghost use Rattle.cep_term.specs.Tree.{Trees, node, atom_of, tree_of, IsGroundAtom};
ghost use Rattle.cep_store.specs.Held.{args_by, parts_at, args_at, IsPartAmong, AddsOnly, AreIds, HasId, StaysHeld};
ghost use Rattle.cep_store.specs.Keys.{IsAtomKey, IsTermKey};

use crate::interning::intern_args;
use crate::keys::{Keys, head_in, ids_in};
use crate::reading::{read_args, read_term};
use cep_term::{Atom, Term};
use std::alloc::{AllocError, Global};
use std::marker::Model;

/// Ground terms and atoms, each kept once under an id. An id is the place of its tree among the
/// terms, or among the atoms, counted from 0, and stays what it is while the store grows. Nothing is
/// ever taken out. Ids are this project's own.
pub struct Store {
    alloc: Global,
    terms: Keys,
    atoms: Keys,
    // Where a key is made, one after another.
    key: Vec<u64>,
}

// Written out: what holds one drops it by one call.
impl Drop for Store {
    fn drop(self) {
        let Store {
            alloc: _,
            terms,
            atoms,
            key,
        } = self;
        drop(terms);
        drop(atoms);
        drop(key);
    }
}

impl Model for Store {
    ghost use Rattle.cep_store.specs.Held.{Held, held_code};
    ghost use Rattle.cep_store.specs.Keys.{held_by, AreKeys};

    ghost Value = { Held };

    ghost coded = { held_code };

    ghost view = { λ store. held_by store.terms store.atoms };

    ghost invariant = { λ store. AreKeys store.terms store.atoms };
}

impl Store {
    /// The store that holds nothing. It takes no memory.
    pub fn new(alloc: Global) -> Store
        ensures terms { result.terms ≡ [] }
        ensures atoms { result.atoms ≡ [] }
    {
        Store {
            alloc,
            terms: Keys::new(alloc),
            atoms: Keys::new(alloc),
            key: Vec::new(alloc),
        }
    }

    /// The id of a ground atom: the one that it has where it is there, and else the next one. Its
    /// arguments are then held as terms. Only out of memory is refused; after it the atoms are as
    /// before, and parts of this atom may be held.
    pub fn intern(&mut self, a: &Atom) -> Result<u64, AllocError>
        requires { IsGroundAtom (atom_of a.now) }
        ensures id { IfOk result (λ id. HasId self.old.atoms (atom_of a.now) id self.new.atoms) }
        ensures stays { StaysHeld self.old self.new }
        ensures only { AddsOnly (λ t. IsPartAmong t (atom_of a.now).args) self.old.terms
            self.new.terms }
        ensures err { OnErr result (self.new.atoms ≡ self.old.atoms) }
    {
        self.key.clear();
        self.key.push(a.pred as u64)?;
        intern_args(self.alloc, &mut self.terms, &a.args, &mut self.key)?;
        self.atoms.add(self.alloc, &self.key)
    }

    /// How many atoms are held. It takes no memory.
    pub fn atoms(&self) -> u64
        ensures value { result ≡ length self.now.atoms }
        ensures ids { AreIds self.now }
    {
        self.atoms.len() as u64
    }

    /// How many terms are held. It takes no memory.
    pub fn terms(&self) -> u64
        ensures value { result ≡ length self.now.terms }
        ensures ids { AreIds self.now }
    {
        self.terms.len() as u64
    }

    // The key of the atom with this id.
    fn atom_key(&self, atom: u64) -> &[u64]
        requires { atom < length self.now.atoms }
        ensures { IsAtomKey self.now atom result.now }
    {
        self.atoms.get(atom)
    }

    // The key of the term with this id.
    fn term_key(&self, term: u64) -> &[u64]
        requires { term < length self.now.terms }
        ensures { IsTermKey self.now term result.now }
    {
        self.terms.get(term)
    }

    /// The predicate's number of the atom with this id. It takes no memory.
    pub fn pred_of(&self, atom: u64) -> u32
        requires { atom < length self.now.atoms }
        ensures { (args : Trees) × (slice_get self.now.atoms atom
            ≡ Some (record { pred = result; args = args })) }
    {
        head_in(self.atom_key(atom))
    }

    /// The term ids of the atom's arguments, in order. It takes no memory.
    pub fn args(&self, atom: u64) -> &[u64]
        requires { atom < length self.now.atoms }
        ensures read { (pred : ℕ) × (slice_get self.now.atoms atom
            ≡ Some (record { pred = pred; args = args_by self.now.terms result.now })) }
        ensures within { AllByRecursion (λ id. id < length self.now.terms) result.now }
        ensures ids { AreIds self.now }
    {
        let atom_key = self.atom_key(atom);
        ids_in(atom_key)
    }

    /// How many arguments the atom with this id has. It takes no memory.
    pub fn count_args(&self, atom: u64) -> usize
        requires { atom < length self.now.atoms }
        ensures { result ≡ length (args_at self.now atom) }
    {
        ids_in(self.atom_key(atom)).len()
    }

    /// The term id of the atom's argument at this place, counted from 0. It takes no memory.
    pub fn arg_of(&self, atom: u64, i: u32) -> u64
        requires { i < length (args_at self.now atom) }
        ensures { slice_get self.now.terms result ≡ slice_get (args_at self.now atom) i }
    {
        let args = ids_in(self.atom_key(atom));
        args[i as usize]
    }

    /// The constructor's number of the term with this id. It takes no memory.
    pub fn head_of(&self, term: u64) -> u32
        requires { term < length self.now.terms }
        ensures { (args : Trees) × (slice_get self.now.terms term ≡ Some (node result args)) }
    {
        let key = self.term_key(term);
        head_in(key)
    }

    /// The term ids of the term's arguments, in order. It takes no memory.
    pub fn parts(&self, term: u64) -> &[u64]
        requires { term < length self.now.terms }
        ensures read { (head : ℕ) × (slice_get self.now.terms term
            ≡ Some (node head (args_by self.now.terms result.now))) }
        ensures within { AllByRecursion (λ id. id < length self.now.terms) result.now }
    {
        let term_key = self.term_key(term);
        ids_in(term_key)
    }

    /// How many arguments the term with this id has. It takes no memory.
    pub fn count_parts(&self, term: u64) -> usize
        requires { term < length self.now.terms }
        ensures { result ≡ length (parts_at self.now term) }
    {
        ids_in(self.term_key(term)).len()
    }

    /// The term id of the term's argument at this place, counted from 0. It takes no memory.
    pub fn part_of(&self, term: u64, i: u32) -> u64
        requires { i < length (parts_at self.now term) }
        ensures { slice_get self.now.terms result ≡ slice_get (parts_at self.now term) i }
    {
        let parts = ids_in(self.term_key(term));
        parts[i as usize]
    }

    /// The atom with this id. Only out of memory is refused.
    pub fn atom_of(&self, alloc: Global, atom: u64) -> Result<Atom, AllocError>
        requires { atom < length self.now.atoms }
        ensures { IfOk result (λ a. slice_get self.now.atoms atom ≡ Some (atom_of a)) }
    {
        let key = self.atom_key(atom);
        Ok(Atom {
            pred: head_in(key),
            args: read_args(alloc, &self.terms, ids_in(key))?,
        })
    }

    /// The term with this id. Only out of memory is refused.
    pub fn term_of(&self, alloc: Global, term: u64) -> Result<Term, AllocError>
        requires { term < length self.now.terms }
        ensures { IfOk result (λ t. slice_get self.now.terms term ≡ Some (tree_of t)) }
    {
        read_term(alloc, &self.terms, term)
    }
}
