ghost use Rattle.std.specs.Prelude.{◌≡◌, ◌<◌, ◌↔◌, [], ◌∷◌, ◌++◌, length, map, slice_get, Some, OnOk, OnErr, IsTrue};
ghost use Rattle.cep_log.specs.Listed.{have_of};

use cep_term::Atom;
use std::alloc::{AllocError, Global};
use std::marker::Model;

/// A line of a listing: an atom, and how many copies of it there are.
#[derive(Drop)]
pub struct Have {
    pub count: u32,
    pub atom: Atom,
}

/// A listing, line by line. Contracts see it as the list of its atoms, each with its count: so the
/// listing of a state is the entries of that state.
#[derive(Drop)]
pub struct Haves {
    haves: Vec<Have>,
}

impl Model for Haves {
    ghost use Rattle.std.specs.Prelude.{List, ℕ, map};
    ghost use Rattle.std.specs.Coded.{coded_list};
    ghost use Rattle.cep_term.specs.Tree.{AtomTree};
    ghost use Rattle.cep_log.specs.Codes.{entry_code};
    ghost use Rattle.cep_log.specs.Listed.{have_of};

    ghost Value = { List (AtomTree × ℕ) };

    ghost coded = { coded_list entry_code };

    ghost view = { λ list. map have_of list.haves.items };
}

impl Haves {
    /// The listing without lines. It takes no memory.
    pub fn new(alloc: Global) -> Haves
        ensures { result ≡ [] }
    {
        Haves {
            haves: Vec::new(alloc),
        }
    }

    /// How many lines there are. It takes no memory.
    pub fn len(&self) -> usize
        ensures { result ≡ length self.now }
    {
        self.haves.len()
    }

    /// Whether there is no line. It takes no memory.
    pub fn is_empty(&self) -> bool
        ensures { IsTrue result ↔ (self.now ≡ []) }
    {
        self.haves.is_empty()
    }

    /// The line at this place, counted from 0. It takes no memory.
    pub fn get(&self, i: usize) -> &Have
        requires { i < length self.now }
        ensures { slice_get self.now i ≡ Some (have_of result.now) }
    {
        &self.haves[i]
    }

    /// The lines as they are kept. It takes no memory.
    pub fn as_slice(&self) -> &[Have]
        ensures { map have_of result.now ≡ self.now }
    {
        self.haves.as_slice()
    }

    /// Adds a line at the end. After out of memory the listing is as before, and the line is gone.
    pub fn push(&mut self, have: Have) -> Result<(), AllocError>
        ensures ok { OnOk result (self.new ≡ self.old ++ have_of have ∷ []) }
        ensures err { OnErr result (self.new ≡ self.old) }
    {
        self.haves.push(have)?;
        Ok(())
    }
}
