ghost use Rattle.std.specs.Prelude.{◌≡◌, ◌^◌, ◌<◌, ◌≤◌, [], length, drop, slice_get, slice_index, Some, IfOk, OnErr};
ghost use Rattle.cep_store.specs.Held.{AreApart};
ghost use Rattle.cep_store.specs.Keys.{TakesPlace};

use indexmap::IndexSet;
use std::alloc::{AllocError, Global};
use std::marker::Model;

/// Different keys in the order in which they were added. A key's id is its place.
pub(crate) struct Keys {
    keys: IndexSet<Vec<u64>>,
}

// Written out: what holds one drops it by one call.
impl Drop for Keys {
    fn drop(self) {
        let Keys { keys } = self;
        drop(keys);
    }
}

impl Model for Keys {
    ghost use Rattle.std.specs.Prelude.{List, ℕ, map};

    ghost Value = { List (List ℕ) };

    ghost view = { λ list. map (λ key. key.items) list.keys.keys };
}

impl Keys {
    // No keys.
    pub(crate) fn new(alloc: Global) -> Keys
        ensures { result ≡ [] }
    {
        Keys {
            keys: IndexSet::new(alloc),
        }
    }

    // How many keys there are.
    pub(crate) fn len(&self) -> usize
        ensures { result ≡ length self.now }
    {
        self.keys.len()
    }

    // The key with this id.
    pub(crate) fn get(&self, id: u64) -> &[u64]
        requires { id < length self.now }
        ensures { slice_get self.now id ≡ Some result.now }
    {
        self.keys.as_slice()[id as usize].as_slice()
    }

    // The id of the key, which is added at the end where it is not there. It is copied only then.
    pub(crate) fn add(&mut self, alloc: Global, key: &[u64]) -> Result<u64, AllocError>
        ensures place { IfOk result (λ id. TakesPlace self.old key.now id self.new) }
        ensures apart { AreApart self.new }
        ensures err { OnErr result (self.new ≡ self.old) }
    {
        // By this call the proof learns that the keys differ.
        let _ = self.keys.len();
        match self.keys.get_index_of(key) {
            Some(id) => Ok(id as u64),
            None => self.push(Vec::from_slice(alloc, key)?),
        }
    }

    // The id of the key, which is added at the end where it is not there.
    fn push(&mut self, key: Vec<u64>) -> Result<u64, AllocError>
        ensures place { IfOk result (λ id. TakesPlace self.old key.items id self.new) }
        ensures apart { AreApart self.new }
        ensures err { OnErr result (self.new ≡ self.old) }
    {
        let (id, _) = self.keys.insert_full(key)?;
        Ok(id as u64)
    }
}

// The head's number of a key.
pub(crate) fn head_in(key: &[u64]) -> u32
    requires some { 1 ≤ length key.now }
    requires small { slice_index key.now 0 < 2 ^ 32 }
    ensures { result ≡ slice_index key.now 0 }
{
    key[0] as u32
}

// The ids in a key.
pub(crate) fn ids_in(key: &[u64]) -> &[u64]
    requires { 1 ≤ length key.now }
    ensures { result.now ≡ drop 1 key.now }
{
    &key[1..]
}

// The key that was begun at this place.
pub(crate) fn key_behind(keys: &[u64], begun: usize) -> &[u64]
    requires { begun ≤ length keys.now }
    ensures { result.now ≡ drop begun keys.now }
{
    &keys[begun..]
}
