ghost use Rattle.std.specs.Prelude.{◌≡◌, ◌+◌, ◌<◌, ℕ, List, [], ◌∷◌, ◌++◌, length, nat_lt, None, IfOk, OnOk};
ghost use Rattle.std.specs.Option.{option_to_list};
ghost use Rattle.cep_term.specs.Tree.{AtomTree, atom_of, IsGroundAtom};
ghost use Rattle.cep_graph.specs.declared.trace.Trace.{Trace};
ghost use Rattle.cep_graph.specs.Queues.{queue_of, IsIdOf, Changes, GetsId};

use crate::trace::Trace;
use cep_store::Store;
use cep_term::Atom;
use cep_term::laws::bags_are_lawful;
use std::alloc::{AllocError, Global};
use std::collections::VecDeque;
use std::marker::Model;

/// The tokens that are present: of each atom, by its id, their traces, the oldest token first.
pub struct Tokens {
    alloc: Global,
    store: Store,
    queues: Vec<VecDeque<Trace>>,
}

// Written out: what holds one drops it by one call.
impl Drop for Tokens {
    fn drop(self) {
        let Tokens {
            alloc: _,
            store,
            queues,
        } = self;
        drop(store);
        drop(queues);
    }
}

impl Model for Tokens {
    ghost use Rattle.std.specs.Prelude.{map};
    ghost use Rattle.cep_graph.specs.Queues.{Queues, queues_code, AreQueues};

    ghost Value = { Queues };

    ghost coded = { queues_code };

    ghost view = { λ tokens. record {
      atoms = tokens.store.atoms;
      rows = map (λ queue. queue.items) tokens.queues.items;
    } };

    ghost invariant = { λ tokens. AreQueues (record {
      atoms = tokens.store.atoms;
      rows = map (λ queue. queue.items) tokens.queues.items;
    }) };
}

impl Tokens {
    /// No token is present.
    pub fn new(alloc: Global) -> Tokens
        ensures { (a : AtomTree) → queue_of result a ≡ [] }
    {
        Tokens {
            alloc,
            store: Store::new(alloc),
            queues: Vec::new(alloc),
        }
    }

    /// The id of a ground atom.
    pub fn id_of(&mut self, atom: &Atom) -> Result<usize, AllocError>
        requires { IsGroundAtom (atom_of atom.now) }
        ensures { IfOk result (λ id. GetsId self.old (atom_of atom.now) id self.new) }
    {
        bags_are_lawful();
        // so that an atom and its queue are added both or not at all
        self.queues.reserve(1)?;
        let id = self.store.intern(atom)? as usize;
        if self.store.atoms() as usize > self.queues.len() {
            self.queues.push(VecDeque::new(self.alloc))?;
        }
        Ok(id)
    }

    /// Whether a token of an atom is present.
    pub fn has(&self, id: usize) -> bool
        requires { id < length self.now.atoms }
        ensures { (a : AtomTree) → IsIdOf self.now id a
            → result ≡ nat_lt 0 (length (queue_of self.now a)) }
    {
        bags_are_lawful();
        self.queues[id].front().is_some()
    }

    /// The number of the step that made the oldest token of an atom; 0 is the start.
    pub fn oldest_maker(&self, id: usize) -> u32
        requires { id < length self.now.atoms }
        ensures { (a : AtomTree) (oldest : Trace) (others : List Trace)
            → IsIdOf self.now id a
            → queue_of self.now a ≡ oldest ∷ others
            → result ≡ oldest.maker }
    {
        bags_are_lawful();
        match self.queues[id].front() {
            Some(trace) => trace.maker,
            None => 0,
        }
    }

    /// Takes the oldest token of an atom.
    pub fn take_oldest(&mut self, id: usize) -> Option<Trace>
        requires { id < length self.old.atoms }
        ensures none { (a : AtomTree) → IsIdOf self.old id a
            → result ≡ None → queue_of self.old a ≡ [] }
        ensures taken { (a : AtomTree) → IsIdOf self.old id a
            → Changes a (λ queue. option_to_list result ++ queue) self.new self.old }
    {
        bags_are_lawful();
        self.queues[id].pop_front()
    }

    /// Puts a token of an atom back that was taken as the oldest.
    pub fn put_back(&mut self, id: usize, trace: Trace) -> Result<(), AllocError>
        requires { id < length self.old.atoms }
        ensures { OnOk result ((a : AtomTree) → IsIdOf self.old id a
            → Changes a (λ queue. trace ∷ queue) self.old self.new) }
    {
        bags_are_lawful();
        self.queues[id].push_front(trace)?;
        Ok(())
    }

    /// Adds a token of an atom, the youngest of all.
    pub fn add(&mut self, id: usize, trace: Trace) -> Result<(), AllocError>
        requires { id < length self.old.atoms }
        ensures { OnOk result ((a : AtomTree) → IsIdOf self.old id a
            → Changes a (λ queue. queue ++ trace ∷ []) self.old self.new) }
    {
        bags_are_lawful();
        self.queues[id].push_back(trace)?;
        Ok(())
    }
}
